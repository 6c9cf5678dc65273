//! The values that a text asks for, of one channel.
ghost use Rattle.std.specs.Prelude.{◌≡◌, ◌+◌, ◌*◌, [], ◌∷◌};
ghost use Rattle.sqlite_value.specs.declared.value.Value.TheVariants.{Int};
ghost use Rattle.sqlite.specs.Values.{bound};
ghost use Rattle.station_tables_records.specs.Values.{of_nat};

use crate::numbered::PAGE;
use sqlite::types::ValueRef;
use station_tables_records::{long_number, short_number};

/// What a text asks of a row or a slot of one channel, by its number.
pub(crate) fn of_number(channel: u16, n: u32) -> [ValueRef<'static>; 2]
    ensures { bound result ≡ of_nat channel ∷ of_nat n ∷ [] }
{
    [short_number(channel), long_number(n)]
}

/// What a text asks of a page of one channel: the first and the last number on it.
pub(crate) fn of_page(channel: u16, page: u32) -> [ValueRef<'static>; 3]
    ensures { bound result ≡ of_nat channel ∷ of_nat (page * 64 + 1) ∷ of_nat (page * 64 + 64) ∷ [] }
{
    let before = i64::from(page) * i64::from(PAGE);
    let first = before + 1;
    let last = before + i64::from(PAGE);
    [
        short_number(channel),
        ValueRef::Int(first),
        ValueRef::Int(last),
    ]
}

/// What a text asks of a channel's days, from one number to another.
pub(crate) fn of_days(channel: u16, first: u32, last: u32) -> [ValueRef<'static>; 3]
    ensures { bound result ≡ of_nat channel ∷ of_nat first ∷ of_nat last ∷ [] }
{
    [short_number(channel), long_number(first), long_number(last)]
}

/// What a text asks of a day of a channel.
pub(crate) fn of_day(channel: u16, day: u32) -> [ValueRef<'static>; 2]
    ensures { bound result ≡ of_nat channel ∷ of_nat day ∷ [] }
{
    [short_number(channel), long_number(day)]
}
