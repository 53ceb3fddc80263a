//! From a fitting schedule to instructions: word order, the register of each launch, and the places of the targets.
//!
//! The instructions keep to the machine's table, and their words do what the launch graph says. They write the
//! registers of the pool and the pins alone. A launch to the pool has its register to the end of the block; or, by live
//! ranges, the first that no launch before it holds, which is given again when its word isn't needed any more.
//!
//! Proved, for both: `assign` gives the instructions and places of a schedule that fits, and no others are its listing
//! (`listing`); each instruction has a word (`words`), and the words may be run (`run`). On a proper graph the
//! instructions keep to the table; in every world where the graph is true the words run to their end with each
//! target's value in its place, the memory's new value, and all registers except those of the pool and the pins as
//! at entry; or, where the guard is 0, leave by the branch with memory and all these registers as at entry, and
//! without a load that waits for the guard. They never trap there (`keeps`). Out of memory is its one refusal. No
//! launch gets a register of the pool that one before it holds in its cycle (`pools_never_run_out`).
//! `worked_listing` has the words of small schedules.
//!
//! What nothing forced, and why:
//! - What running leaves as at entry is said of all registers that are neither pool nor pin, since words that follow
//!   stand on that; and of each word that it is stepped in its place, so that a text of several schedules can be run
//!   word by word.
//! - `IsListing` hides a word order, so alone it is no function; `assign` says besides that no other items and places
//!   are the schedule's listing. The words that a schedule means are compared as numbers (`HasListing`).
//! - What running the words does is said of any words that decode to the items, so no clause needs `encode`.
//! - A launch that is read has its slot below 2 ^ 31 too (`IsLaunch`), which each table within its limits keeps; the
//!   reader of a line sees a table without these limits.
#![tactic(auto)]

mod assigning;
mod laws;
mod listings;
mod pool_places;
mod registers;
mod worded;
mod wording;
mod worked;

pub use assigning::assign;
pub use laws::{listings_have_words, pools_never_run_out};
pub use listings::{Item, Listing, Where};
pub use worded::words_of;
pub use worked::worked_listing;
