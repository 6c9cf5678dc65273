//! Lists in the order of their channels, where a channel's rows are found by bisection.
ghost use Rattle.std.specs.Prelude.{◌≡◌, ◌≤◌, ℕ, true, false, filter, ◌==◌, nat_lt, nat_le, length};
ghost use Rattle.std.specs.List.Sorted.{IsNonDecreasingBy, IsPartitionPoint};

use channel_plan::PlanRow;

/// A row of a channel.
pub trait OfChannel {
    ghost channel_of: { Self → ℕ };

    fn channel(&self) -> u16
        ensures { result ≡ channel_of self.now };
}

impl OfChannel for PlanRow {
    ghost channel_of = { λ p. p.ch };

    fn channel(&self) -> u16 {
        self.ch
    }
}

impl<T> OfChannel for (u16, T) {
    ghost channel_of = { λ r. r.0 };

    fn channel(&self) -> u16 {
        self.0
    }
}

/// The rows of one channel.
pub fn channel_rows<R: OfChannel>(rows: &[R], channel: u16) -> &[R]
    requires { IsNonDecreasingBy R.channel_of rows.now }
    ensures { result.now ≡ filter (λ r. R.channel_of r == channel) rows.now }
{
    let (up_to_it, _) = rows.split_at(channel_end(rows, channel));
    let (_, own) = up_to_it.split_at(channel_start(rows, channel));
    own
}

/// Where the rows of this channel begin.
pub fn channel_start<R: OfChannel>(rows: &[R], channel: u16) -> usize
    requires { IsNonDecreasingBy R.channel_of rows.now }
    ensures within { result ≤ length rows.now }
    ensures place { IsPartitionPoint (λ r. nat_lt (R.channel_of r) channel ≡ true)
        (λ r. nat_lt (R.channel_of r) channel ≡ false) rows.now result }
{
    rows.partition_point(|row| row.channel() < channel)
}

/// Where those of the channels behind it begin.
pub fn channel_end<R: OfChannel>(rows: &[R], channel: u16) -> usize
    requires { IsNonDecreasingBy R.channel_of rows.now }
    ensures within { result ≤ length rows.now }
    ensures place { IsPartitionPoint (λ r. nat_le (R.channel_of r) channel ≡ true)
        (λ r. nat_le (R.channel_of r) channel ≡ false) rows.now result }
{
    rows.partition_point(|row| row.channel() <= channel)
}
