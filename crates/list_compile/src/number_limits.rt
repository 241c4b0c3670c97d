//! How many procedures of one kind there are at most, and how great their numbers are.
//!
//! Definitions, code and proofs cite these constants. They follow from the limits of a chart: the
//! number of every procedure has 32 bits.

use flow_base::chart_limits::{JUNCTION_LIMIT, STATE_LIMIT, TRANSITION_LIMIT};

// ---- how many procedures there are

/// The greatest number of procedures for the parts of the transitions of one list. Each transition
/// of a chart has at most four: one for its guard, two for its condition action and one for its
/// transition action.
pub const LIST_PARTS_LIMIT: u32 = 4 * TRANSITION_LIMIT;

/// The greatest number of procedures for the parts of the transitions of one state, which has three
/// lists.
pub const STATE_PARTS_LIMIT: u32 = 3 * LIST_PARTS_LIMIT;

/// The greatest number of procedures of one kind for one state or one junction, 2 to the power of
/// 17. It is above `STATE_PARTS_LIMIT`, and above what firings and lists take in a state: these are
/// a few for each state below it and each junction reached from it.
pub const SIZE_LIMIT: u32 = 4 * LIST_PARTS_LIMIT;

/// The greatest number of procedures of one kind for all states or for all junctions, 2 to the
/// power of 29. A chart may have more junctions than states.
pub const SUM_LIMIT: u32 = JUNCTION_LIMIT * SIZE_LIMIT;

// ---- how great the numbers are with which kinds begin

/// The greatest number of the first part of a transition of a state. Before it stand the end mark
/// and three actions of each state, fewer than four for each.
pub const STATE_PARTS_START_LIMIT: u32 = 4 * STATE_LIMIT;

/// The greatest number of the first part of a transition of a junction. Before it stand all parts
/// of states.
pub const JUNCTION_PARTS_START_LIMIT: u32 = STATE_PARTS_START_LIMIT + SUM_LIMIT;

/// The greatest number of the first procedure for firings. Before it stand all parts of junctions.
pub const GROUPS_START_LIMIT: u32 = JUNCTION_PARTS_START_LIMIT + SUM_LIMIT;

/// The greatest number of the first procedure of outer and inner lists. Before it stand all
/// procedures for firings.
pub const LISTS_START_LIMIT: u32 = GROUPS_START_LIMIT + SUM_LIMIT;

/// The greatest number of the first procedure that processes a state. Before it stand all outer and
/// inner lists.
pub const PROCESSES_START_LIMIT: u32 = LISTS_START_LIMIT + SUM_LIMIT;

// ---- how great the numbers of lists and parts are

/// The greatest number of the procedure of a list: an inner list follows the outer one and the
/// junctions that are reached from that.
pub const LIST_LIMIT: u32 = PROCESSES_START_LIMIT + 1 + JUNCTION_LIMIT;

/// The greatest number of the procedure of a list after which those of all junctions have numbers.
pub const SEARCH_LIMIT: u32 = u32::MAX - 1 - JUNCTION_LIMIT;

/// The greatest number of the first part of a transition whose fourth part has a number.
pub const PART_LIMIT: u32 = u32::MAX - 3;
