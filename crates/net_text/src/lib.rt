//! Net texts: which charts a net has and by which routes they send each other events.
//!
//! Read `specs/NetTexts.antt` first, what a net text says, then `specs/Fields.antt`, what its lines
//! say, and `specs/Reading.antt`, which line can stand where and which fault is the first.
//! `specs/Routes.antt` says which route its names stand for.
#![tactic(auto)]

mod copies;
mod expected;
mod fault;
mod fields;
mod limits;
mod lines;
mod net;
mod partial;
mod reader;
mod repeats;
mod route;

pub use fault::{NET_FAULT_ROOM, NetFault};
pub use limits::{CAP_LIMIT, CHART_LIMIT, FILE_NAME_LIMIT, NET_TEXT_LIMIT, ROUTE_LIMIT};
pub use net::{NetChart, NetText, RouteText};
pub use reader::read_net;
pub use route::{Route, route_of};
