//! The values that statements are given.
ghost use Rattle.std.specs.Prelude.{◌≡◌, [], ◌∷◌};
ghost use Rattle.sqlite_value.specs.Value.{owned};
ghost use Rattle.sqlite.specs.Values.{bound};
ghost use Rattle.station_tables_records.specs.Values.{of_nat, of_bool};

use sqlite::types::ValueRef;

/// A number of 16 bits.
pub fn short_number(n: u16) -> ValueRef<'static>
    ensures { owned result ≡ of_nat n }
{
    ValueRef::Int(i64::from(n))
}

/// A number of 32 bits.
pub fn long_number(number: u32) -> ValueRef<'static>
    ensures { owned result ≡ of_nat number }
{
    ValueRef::Int(i64::from(number))
}

/// 1 or 0.
pub fn truth(yes: bool) -> ValueRef<'static>
    ensures { owned result ≡ of_bool yes }
{
    ValueRef::Int(i64::from(yes))
}

/// What a text asks of one channel.
pub fn of_channel(channel: u16) -> [ValueRef<'static>; 1]
    ensures { bound result ≡ of_nat channel ∷ [] }
{
    [short_number(channel)]
}
