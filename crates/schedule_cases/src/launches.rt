// The launches of a case's input.
ghost use Rattle.std.specs.Prelude.{◌<◌, ◌^◌, length, IfOk};

use case_files::{Lines, Trouble, Words};
use items::Items;
use schedule_meaning::{Launch, Schedule, To};
use std::alloc::Global;

/// The launches of lines `launch CYCLE SLOT ROW` and `launch CYCLE SLOT ROW SET`, slots and sets by their numbers.
/// A launch without a set goes to the pool.
pub(crate) fn schedule_in(alloc: Global, text: &[u8]) -> Result<Schedule, Trouble>
    ensures { IfOk result (λ schedule. length schedule.launches < 2 ^ 29) }
{
    let mut launches = Items::new(alloc);
    let mut lines = Lines { rest: text };
    for _ in 0..text.len() {
        let Some(line) = lines.next() else {
            break;
        };
        let numbers = line.strip_prefix(b"launch ").ok_or(Trouble::Unread)?;
        let mut words = Words { rest: numbers };
        launches.push(Launch {
            cycle: words.small()?,
            slot: words.small()?,
            row: words.small()?,
            to: if words.rest.is_empty() {
                To::Pool
            } else {
                To::Set(words.small()?)
            },
        })?;
    }
    if launches.len() > 1 << 24 {
        return Err(Trouble::Unread);
    }
    Ok(Schedule { launches })
}
