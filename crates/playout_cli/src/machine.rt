//! What the program asks of the machine on which it runs: files, and ports.
//!
//! All else that the program does goes to the reader and the writers that it is handed. Of a machine no contract knows
//! which tables a file holds. So [`Files::holds`] stands for that, and each clause above is of any machine. The same
//! holds of the lists that words name (`playout_lists::Lists`).
ghost use Rattle.std.specs.Prelude.{◌≡◌, ◌∷◌, [], ℕ, List, false, IfOk, IfErr};
ghost use Rattle.std.specs.Net.Addr.{ipv4_octets};
ghost use Rattle.sqlite.specs.State.{State};
ghost use Rattle.sqlite.specs.Held.{state};
ghost use Rattle.playout_cli.specs.Serving.{IsPort, OpenHas};

use playout_lists::{Fault, Lists};
use playout_peers::Sockets;
use sqlite::{Connection, Error, ErrorCode, File, FileStore};
use sqlite_trees::store::Store;
use std::alloc::Global;
use std::fs;
use std::net::{Ipv4Addr, SocketAddr, TcpListener};

/// Where databases are kept, by their names.
pub trait Files {
    /// As it was opened, the file of this name held this database.
    ghost holds: { Self → List ℕ → State → Type 0 };

    /// Whether no file of this name is in its folder, which is there. `:memory:`, an empty path and a URI name none.
    fn is_missing(&self, file: &str) -> bool;

    /// Opens the file. Its pages have no sums, so that the sqlite3 program may write it too.
    fn open(&self, file: &str) -> Result<Connection<FileStore<File>>, Fault>
        ensures idle { IfOk result (λ conn. conn.in_transaction ≡ false) }
        ensures holds { IfOk result (λ conn. holds self.now file.now
            (state ⟦<FileStore<File> as Store>⟧ conn)) }
        ensures err { IfErr result OpenHas };

    /// Copies the log into the file and takes it away. Where that fails, it stays beside the file with all that was
    /// answered.
    fn close(&self, conn: Connection<FileStore<File>>);
}

/// Where connections come in.
pub trait Ports {
    /// Listens on this port of 127.0.0.1, or with 0 on a free one, and says which.
    fn listen(&self, port: u16) -> Result<(TcpListener, u16), Fault>
        ensures port { IfOk result (λ found. IsPort port found.1) }
        ensures err { IfErr result (λ fault. fault ≡ Fault.Listen) };

    /// The same, for so many connections at once.
    fn listen_at_once(
        &self,
        alloc: Global,
        port: u16,
        places: usize,
    ) -> Result<(Sockets<'_, HostRuntime>, u16), Fault>
        ensures port { IfOk result (λ found. IsPort port found.1) }
        ensures err { IfErr result (λ fault. fault ≡ Fault.Listen) };
}

// The address that is listened on: no other machine gets through to it.
fn address_of(port: u16) -> (Ipv4Addr, u16)
    ensures host { ipv4_octets result.0 ≡ 127 ∷ 0 ∷ 0 ∷ 1 ∷ [] }
    ensures port { result.1 ≡ port }
{
    (Ipv4Addr::new(127, 0, 0, 1), port)
}

// The port of the line: the one that was asked for, or where that was 0 the one that was found.
fn port_of(asked: u16, found: u16) -> u16
    ensures { IsPort asked result }
{
    if asked == 0 { found } else { asked }
}

/// The machine of the process.
#[derive(Clone, Copy)]
pub struct Host<'a>(pub &'a HostRuntime);

/// No contract knows the tables of a file.
impl Files for Host<'_> {
    ghost holds = { λ _ _ _. Unit {0} };

    fn is_missing(&self, file: &str) -> bool {
        if file.is_empty() || file == ":memory:" || file.starts_with("file:") {
            return false;
        }
        let has_folder = match file.rsplit_once('/') {
            Some((folder, _)) => folder.is_empty()
                || matches!(fs::exists(self.0, folder), Ok(true)),
            None => true,
        };
        has_folder && matches!(fs::exists(self.0, file), Ok(false))
    }

    fn open(&self, file: &str) -> Result<Connection<FileStore<File>>, Fault> {
        match Connection::open(self.0, file) {
            Ok(conn) => Ok(conn),
            Err(Error::SqliteFailure(ErrorCode::OutOfMemory)) => Err(Fault::UNAVAILABLE),
            Err(_) => Err(Fault::Open),
        }
    }

    fn close(&self, conn: Connection<FileStore<File>>) {
        // A log that couldn't be copied into the file is no fault: it keeps the commits for the next run.
        let _ = conn.close();
    }
}

/// No contract knows the bytes of a file.
impl Lists for Host<'_> {
    type Opened = fs::File;

    ghost gives = { λ _ _ _. Unit {0} };

    fn open_list(&self, file: &str) -> Result<fs::File, Fault> {
        match fs::File::open(self.0, file) {
            Ok(opened) => Ok(opened),
            Err(_) => Err(Fault::Open),
        }
    }
}

impl Ports for Host<'_> {
    fn listen(&self, port: u16) -> Result<(TcpListener, u16), Fault> {
        let Ok(listener) = TcpListener::bind(self.0, address_of(port)) else {
            return Err(Fault::Listen);
        };
        let Ok(address) = listener.local_addr() else {
            return Err(Fault::Listen);
        };
        Ok((listener, port_of(port, address.port())))
    }

    fn listen_at_once(
        &self,
        alloc: Global,
        port: u16,
        places: usize,
    ) -> Result<(Sockets<'_, HostRuntime>, u16), Fault> {
        let address = SocketAddr::from(address_of(port));
        let Ok(sockets) = Sockets::listen(self.0, self.0, alloc, address, places) else {
            return Err(Fault::Listen);
        };
        let Ok(found) = sockets.port() else {
            return Err(Fault::Listen);
        };
        Ok((sockets, port_of(port, found)))
    }
}
