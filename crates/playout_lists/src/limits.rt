//! How long a connection may be waited for.
ghost use Rattle.std.specs.Prelude.{◌≡◌, ◌≢◌, ℕ, IfErr, OnOk};
ghost use Rattle.std.specs.Duration.{as_nanos};
ghost use Rattle.playout_lists.specs.Limits.{IsLimited};

use crate::streams::InputFault;
use std::io;
use std::net::TcpStream;
use std::time::Duration;

/// What can be told how long one read, and one write, may wait.
pub trait Limited {
    /// Its reads were told to wait so many nanoseconds at most.
    ghost limits_reads: { Self → ℕ → Type 0 };

    /// Its writes were.
    ghost limits_writes: { Self → ℕ → Type 0 };

    fn limit_reads(&self, limit: Duration) -> io::Result<()>
        ensures { OnOk result (limits_reads self.now (as_nanos limit)) };

    fn limit_writes(&self, limit: Duration) -> io::Result<()>
        ensures { OnOk result (limits_writes self.now (as_nanos limit)) };
}

/// No contract sees what the system makes of a limit, but that one of nothing isn't taken.
impl Limited for TcpStream {
    ghost limits_reads = { λ _ nanos. nanos ≢ 0 };

    ghost limits_writes = { λ _ nanos. nanos ≢ 0 };

    fn limit_reads(&self, limit: Duration) -> io::Result<()> {
        self.set_read_timeout(Some(limit))
    }

    fn limit_writes(&self, limit: Duration) -> io::Result<()> {
        self.set_write_timeout(Some(limit))
    }
}

/// Has each read and each write of a connection wait so many seconds at most.
pub fn limit<C: Limited>(connection: &C, seconds: u16) -> Result<(), InputFault>
    ensures ok { OnOk result (IsLimited C.limits_reads C.limits_writes connection.now seconds) }
    ensures err { IfErr result (λ fault. fault ≡ InputFault.Read) }
{
    let limit = Duration::from_secs(u64::from(seconds));
    connection.limit_reads(limit)?;
    connection.limit_writes(limit)?;
    Ok(())
}
