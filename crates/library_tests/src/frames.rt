//! The stack of frames: a few frames, past the end of a chunk, and where memory is refused.
use crate::checks::check;
use flow_base::Memory;
use frame_stack::FrameStack;
use std::process::Abort;

/// Pushes a frame of these words, where it can be.
fn push(stack: &mut FrameStack, words: &[u32]) {
    if stack.spare() > 0 && !words.is_empty() && words.len() <= 7 {
        stack.push(words);
    }
}

/// Takes the top frame away, where there is one.
fn pop(stack: &mut FrameStack) {
    if stack.len() > 0 {
        stack.pop();
    }
}

/// The words of a frame, if there is one of the number.
fn frame(stack: &FrameStack, i: usize) -> Option<&[u32]> {
    if i < stack.len() {
        Some(stack.at(i))
    } else {
        None
    }
}

/// Asserts how many frames there are, and the words of some of them.
fn check_frames(rt: &impl Abort, stack: &FrameStack, len: usize, rows: &[(usize, &[u32])]) {
    check(rt, &"how many frames", &stack.len(), &len);
    for (i, words) in rows {
        check(rt, i, &frame(stack, *i), &Some(*words));
    }
}

/// A frame that is pushed, or none where the top one is taken away, how many frames there are
/// then, and their words.
const STEPS: &[(Option<&[u32]>, usize, &[(usize, &[u32])])] = &[
    (Some(&[7, 8]), 1, &[(0, &[7, 8])]),
    (Some(&[9]), 2, &[(0, &[7, 8]), (1, &[9])]),
    (None, 1, &[(0, &[7, 8])]),
];

#[test]
fn frames_are_pushed_and_popped(rt: HostRuntime) {
    let mut stack = FrameStack::new(rt.alloc());
    check(&rt, &"no frame", &(stack.len(), stack.spare()), &(0, 0));
    stack.reserve(2).expect(&rt, "memory");
    let room = stack.spare();
    check(&rt, &room, &(room >= 2), &true);
    for (pushed, len, rows) in STEPS {
        match pushed {
            Some(words) => push(&mut stack, words),
            None => pop(&mut stack),
        }
        check_frames(&rt, &stack, *len, rows);
        check(&rt, len, &stack.spare(), &room.saturating_sub(*len));
    }
    drop(stack);
}

/// Changes a word of a frame, where there is such a word.
fn set(stack: &mut FrameStack, i: usize, w: usize, value: u32) {
    if i < stack.len() && w < stack.at(i).len() {
        stack.set(i, w, value);
    }
}

/// A word of a frame that is changed, and the words of both frames then: a word that isn't there is
/// passed over.
const CHANGES: &[((usize, usize, u32), [&[u32]; 2])] = &[
    ((0, 1, 5), [&[7, 5], &[9]]),
    ((1, 0, u32::MAX), [&[7, 5], &[u32::MAX]]),
    ((1, 1, 3), [&[7, 5], &[u32::MAX]]),
];

#[test]
fn a_word_of_a_frame_is_changed(rt: HostRuntime) {
    let mut stack = FrameStack::new(rt.alloc());
    stack.reserve(2).expect(&rt, "memory");
    push(&mut stack, &[7, 8]);
    push(&mut stack, &[9]);
    let spare = stack.spare();
    for ((i, w, value), [first, second]) in CHANGES {
        set(&mut stack, *i, *w, *value);
        check_frames(&rt, &stack, 2, &[(0, first), (1, second)]);
        check(&rt, value, &stack.spare(), &spare);
    }
    drop(stack);
}

/// Frames on both sides of the end of a chunk, and the top one.
const NUMBERED: &[(usize, &[u32])] = &[
    (1023, &[1023, 1, 2, 3, 4, 5, 6]),
    (1024, &[1024, 1, 2, 3, 4, 5, 6]),
    (2499, &[2499, 1, 2, 3, 4, 5, 6]),
];

/// Pushes 2,500 frames, and takes 1,500 away.
#[test]
fn frames_go_on_in_the_next_chunk(rt: HostRuntime) {
    let mut stack = FrameStack::new(rt.alloc());
    stack.reserve(3000).expect(&rt, "memory");
    for i in 0..2500u32 {
        push(&mut stack, &[i, 1, 2, 3, 4, 5, 6]);
    }
    check_frames(&rt, &stack, 2500, NUMBERED);
    for _ in 0..1500 {
        pop(&mut stack);
    }
    check_frames(&rt, &stack, 1000, &[]);
    let spare = stack.spare();
    check(&rt, &spare, &(spare >= 2000), &true);
    drop(stack);
}

/// Asks for room for 5,000 more frames, and says whether it is there, or as much as before where it
/// is refused.
fn keeps_room(stack: &mut FrameStack) -> bool {
    let spare = stack.spare();
    match stack.reserve(5000) {
        Ok(()) => stack.spare() >= 5000,
        Err(_) => stack.spare() == spare,
    }
}

/// The first frame, and the last one of those that are pushed after it.
const PUSHED: &[(usize, &[u32])] = &[(0, &[3, 4]), (1000, &[999])];

/// Pushes a frame, asks for more room than there is and for some, and pushes what fits.
fn check_refused(rt: &impl Abort, stack: &mut FrameStack) {
    push(stack, &[3, 4]);
    let spare = stack.spare();
    check(rt, &"too much", &stack.reserve(usize::MAX), &Err(Memory));
    check(rt, &"too much", &(stack.spare(), stack.len()), &(spare, 1));
    check(rt, &"room for 5,000", &keeps_room(stack), &true);
    check_frames(rt, stack, 1, &[]);
    for i in 0..1000u32 {
        push(stack, &[i]);
    }
    check_frames(rt, stack, 1001, PUSHED);
}

/// Whichever request for memory is refused, frames and spare stay, and what fits can be pushed.
/// `rt try --test --fail-alloc N` refuses the requests from the Nth on.
#[test]
fn refused_memory_leaves_the_stack(rt: HostRuntime) {
    let mut stack = FrameStack::new(rt.alloc());
    match stack.reserve(1) {
        Ok(()) => check_refused(&rt, &mut stack),
        Err(_) => check(&rt, &"refused", &stack.spare(), &0),
    }
    drop(stack);
}
