//! The face of the database: which command an HTTP request asks for, and how its answer is shown, after the CouchDB 3.x API reference.
//!
//! What is answered is a table: specs/Routes.antt has the paths and the methods, specs/Plan.antt what each asks for, specs/Answer.antt,
//! specs/Edited.antt and specs/Entries.antt what is answered. A parameter of a query that changes a meaning in CouchDB and is not of the table
//! is refused by its name.
//!
//! A number of a body is read by its value (specs/Numbers.antt), and a refusal names the first one that is not whole (specs/Place.antt).
//!
//! Promises. `Face` is a service of `mg_wire` over a `Store`, which answers commands, and questions beside them. `answer_of` (specs/Face.antt)
//! defines the answer to each request in each world, and `commands_of` the commands that it executes, of which at most one writes. What a `Face` responds is that answer,
//! or a 503 for want of memory; a 503 after the store was asked is possible only where the answer has fields of its own (`MayLack`). A number is
//! drawn for each request, from a source that the program seeds; ids are counted from it (`id_text`), and both definitions take it. Where a
//! document is looked for before it is deleted, the definition has one world; on a seat the deletion is executed after the commits of the look,
//! or more (`IsLookedFor`). Each response has the date of the system's clock, of which the definitions do not speak. Laws:
//! `a_seat_answers_as_defined`, `a_tag_is_the_revision_shown`, `an_edit_is_shown`.
#![tactic(auto)]

mod action;
mod answer;
mod bulk;
mod clock;
mod count;
mod document;
mod edit;
mod edited;
mod endpoint;
mod entries;
mod face;
mod fault;
mod ids;
mod index;
pub mod laws;
mod listing;
mod number;
mod options;
mod parameter;
mod place;
mod plan;
mod read;
mod replica;
mod route;
mod said;
mod show;
mod store;
mod tag;
mod text;

pub use crate::action::{Action, Endpoint, Verb};
pub use crate::count::{CountFault, MAX_COUNT};
pub use crate::edited::{Change, SEGMENT};
pub use crate::face::Face;
pub use crate::fault::Fault;
pub use crate::parameter::Parameter;
pub use crate::place::Fraction;
pub use crate::plan::{Plan, Way};
pub use crate::route::Resource;
pub use crate::said::{Clash, Said};
pub use crate::store::Store;
