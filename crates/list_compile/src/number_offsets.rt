//! Where the procedures of a state stand among each other.
//!
//! They are the numbers of `chart_code/specs/Places.antt`.

/// The number of the end mark, the first procedure of all.
pub const END_MARK: u32 = 0;

// ---- the actions of states, which follow the end mark

/// The number of the entry action of the root.
pub const ENTRY_START: u32 = 1;

/// The number of the during action of the root.
pub const DURING_START: u32 = 2;

/// The number of the exit action of the root.
pub const EXIT_ACTION_START: u32 = 3;

/// How many actions each state has.
pub const ACTION_COUNT: u32 = 3;

// ---- what firings take in a state, from the procedure by which its children are left
//
// The arrivals at states below it come before the default list, with one for each of these states;
// the junctions of the default list come after that list; the firings with this home come before
// the entries, with one for the state and for each state below it. Those are counted on top.

/// The procedure by which the state is left. The arrival at the n-th state after it stands n after
/// this one.
pub const EXIT_OFFSET: u32 = 1;

/// Its default list.
pub const DEFAULT_LIST_OFFSET: u32 = 2;

/// The procedure by which it is entered by default.
pub const DEFAULTS_OFFSET: u32 = 3;

/// The arrival at the state itself.
pub const ARRIVE_OFFSET: u32 = 4;

/// The firing to the state itself.
pub const TAKE_OFFSET: u32 = 5;

/// The entry of the state on the way to itself.
pub const ENTER_OFFSET: u32 = 6;

/// How many procedures there are for firings in a state without a state below it and without a
/// junction that its default list reaches.
pub const GROUP_SIZE: u32 = 7;

/// How many more there are for each state below it: an arrival, a firing and an entry.
pub const BELOW_SIZE: u32 = 3;

// ---- the outer and the inner list of a state, from the outer list

/// The inner list, where the outer one reaches no junction. Those that it reaches come between.
pub const INNER_OFFSET: u32 = 1;

/// How many procedures there are for both lists, where they reach no junction.
pub const LISTS_SIZE: u32 = 2;
