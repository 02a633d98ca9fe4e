ghost use Rattle.std.specs.Prelude.{◌≡◌, ◌<◌, [], length, None, Some};
ghost use Rattle.tf_ports.specs.Noted.{door_told, noted, passed_in, seen_by};
ghost use Rattle.tf_ports.specs.Sockets.{ReadsSome, SendsSome};

use crate::crews::{Address, PortFault};
use crate::dialers::Dialer;
use crate::doors::Door;
use crate::links::{Came, Link, LinkFault};
use std::alloc::Global;
use std::fs::{self, Permissions};
use std::io::{self, Eprint, Error, ErrorKind, Read, Write};
use std::net::{Ipv4Addr, Net, Shutdown, SocketAddrV4, TcpListener, TcpStream};
use std::os::unix::fs::{FileTypeExt, PermissionsExt};
use std::os::unix::net::{UnixListener, UnixStream};
use std::rt::Files;
use std::time::Duration;
use tf_desk::tell_reason;
use tf_log::Log;
use tf_trace::Trace;
use tf_values::Memory;

/// A stream of the system's: a Unix socket's, or a connection by TCP.
#[derive(Drop)]
enum Stream {
    Unix(UnixStream),
    Tcp(TcpStream),
}

/// A real link, over a socket. Where it fails the system's reason is said on standard error, behind the address at
/// which it was made. It notes what it sends and what comes, and tells what passed; of what it has left it tells nothing.
/// One that isn't waited for for ever is ended when its peer is silent for too long, so that what comes late is never
/// taken for a reply to what was sent since.
#[derive(Drop)]
pub struct SocketLink<R> {
    runtime: R,
    address: Address,
    stream: Stream,
    within: Option<u32>,
    faults: u64,
    ends: u64,
    trace: Trace,
}

impl<R> SocketLink<R> {
    /// A link that was made at the address, with no fault and no end so far. Its stream waits for its peer for so many
    /// seconds, if there is a bound.
    fn make(runtime: R, address: Address, stream: Stream, within: Option<u32>) -> SocketLink<R>
        ensures unsent { result.trace.calls ≡ [] }
        ensures none { (result.faults ≡ 0) × (result.ends ≡ 0) }
    {
        SocketLink {
            runtime,
            address,
            stream,
            within,
            faults: 0,
            ends: 0,
            trace: Trace::new(),
        }
    }
}

impl<R: Eprint + Drop> Link for SocketLink<R> {
    ghost left = { λ _. None };

    ghost transcript = { λ link. passed_in link.trace.calls };

    ghost faults = { λ link. link.faults };

    ghost ends = { λ link. link.ends };

    fn send(&mut self, bytes: &[u8]) -> Result<(), LinkFault> {
        let done = match &mut self.stream {
            Stream::Unix(stream) => send_whole(stream, &mut self.trace, bytes),
            Stream::Tcp(stream) => send_whole(stream, &mut self.trace, bytes),
        };
        if let Err(reason) = done {
            tell_link_reason(&self.runtime, &self.address, self.within, &reason);
            shut(&self.stream);
            self.faults = self.faults.saturating_add(1);
            return Err(LinkFault);
        }
        Ok(())
    }

    fn recv(&mut self, buf: &mut [u8]) -> Came {
        let came = match &mut self.stream {
            Stream::Unix(stream) => get(&self.runtime, &self.address, self.within, stream, buf),
            Stream::Tcp(stream) => get(&self.runtime, &self.address, self.within, stream, buf),
        };
        match came {
            Came::Bytes(count) => {
                self.trace.gave(0, &buf[..count]);
                Came::Bytes(count)
            }
            Came::End => {
                self.ends = self.ends.saturating_add(1);
                Came::End
            }
            Came::Failed => {
                shut(&self.stream);
                self.faults = self.faults.saturating_add(1);
                Came::Failed
            }
        }
    }

    fn end(&mut self) {
        shut(&self.stream);
    }
}

/// Ends the stream both ways.
fn shut(stream: &Stream) {
    // One that the peer ended already can't be ended again.
    let _ended = match stream {
        Stream::Unix(stream) => stream.shutdown(Shutdown::Both),
        Stream::Tcp(stream) => stream.shutdown(Shutdown::Both),
    };
}

/// Sends the bytes over the stream, in as many writes as it takes; an interrupted one is tried again. `Err`: a write failed
/// or took nothing, and a prefix of the bytes was sent.
fn send_whole<S: Write>(stream: &mut S, trace: &mut Trace, bytes: &[u8]) -> io::Result<()>
    ensures { SendsSome bytes.now result (S.contents stream.old) (S.contents stream.new)
        (passed_in trace.old.calls) (passed_in trace.new.calls) }
{
    let mut done = 0;
    for _ in 0..u64::MAX {
        if done >= bytes.len() {
            return Ok(());
        }
        match stream.write(&bytes[done..]) {
            Ok(0) => return Err(Error::from(ErrorKind::WriteZero)),
            Ok(n) => {
                trace.said(&bytes[done..done + n]);
                done += n;
            }
            Err(reason) => {
                if reason.kind() != ErrorKind::Interrupted {
                    return Err(reason);
                }
            }
        }
    }
    Err(Error::from(ErrorKind::Interrupted))
}

/// What comes next over the stream of a link that was made at the address; an interrupted read is tried again.
fn get<R: Eprint, S: Read>(
    runtime: &R,
    address: &Address,
    within: Option<u32>,
    stream: &mut S,
    buf: &mut [u8],
) -> Came
    requires room { 0 < length buf.old }
    ensures { ReadsSome (S.remaining stream.old) (S.remaining stream.new) buf.new result }
{
    for _ in 0..u64::MAX {
        match stream.read(buf) {
            Ok(0) => return Came::End,
            Ok(count) => return Came::Bytes(count),
            Err(reason) => {
                if reason.kind() != ErrorKind::Interrupted {
                    tell_link_reason(runtime, address, within, &reason);
                    return Came::Failed;
                }
            }
        }
    }
    Came::Failed
}

/// A socket that waits for connections.
#[derive(Drop)]
enum Listener {
    Unix(UnixListener),
    Tcp(TcpListener),
}

/// A socket that waits for connections, and its address.
#[derive(Drop)]
struct Opened {
    address: Address,
    listener: Listener,
}

/// The real door: a Unix socket, whose file has the given mode, at a path that nothing has yet but a socket at which nobody
/// answers, and that stays when the door is gone; or a port of 127.0.0.1. Where it can't be opened, or fails, the system's
/// reason is said on standard error. It notes and tells where it was opened, and of each link what was seen as it was given
/// and given back.
#[derive(Drop)]
pub struct SocketDoor<R> {
    runtime: R,
    mode: u32,
    opened: Option<Opened>,
    faults: u64,
    addresses: Log<Address, ()>,
    given: Log<SocketLink<R>, ()>,
    returned: Log<SocketLink<R>, ()>,
}

impl<R> SocketDoor<R> {
    /// A door that isn't open yet, with no fault so far.
    pub fn make(runtime: R, mode: u32) -> SocketDoor<R>
        ensures unopened { result.addresses.items ≡ [] }
        ensures ungiven { (result.given.items ≡ []) × (result.returned.items ≡ []) }
        ensures none { result.faults ≡ 0 }
    {
        SocketDoor {
            runtime,
            mode,
            opened: None,
            faults: 0,
            addresses: Log::new(),
            given: Log::new(),
            returned: Log::new(),
        }
    }
}

impl<R: Net<Listener = TcpListener, Stream = TcpStream> + Files + Eprint + Copy + Send + Drop> Door
    for SocketDoor<R> {
    type Made = SocketLink<R>;

    ghost faults = { λ door. door.faults };

    ghost told = { λ door. door_told (λ link. seen_by link.trace.calls link.faults link.ends)
        door.addresses.items door.given.items door.returned.items };

    fn listen(&mut self, alloc: Global, address: &Address) -> Result<(), PortFault> {
        let Ok(kept) = address.copy(alloc) else {
            return Err(PortFault::Memory);
        };
        match open(&self.runtime, address, self.mode) {
            Ok(listener) => {
                self.opened = Some(Opened {
                    address: kept,
                    listener,
                });
                self.addresses = self.addresses.and(address, &());
                Ok(())
            }
            Err(reason) => {
                tell_address_reason(&self.runtime, address, &reason);
                self.faults = self.faults.saturating_add(1);
                Err(PortFault::Failed)
            }
        }
    }

    fn accept(&mut self, alloc: Global) -> Result<SocketLink<R>, PortFault> {
        let made = match &self.opened {
            Some(opened) => next_link(&self.runtime, alloc, opened),
            None => Err(PortFault::Failed),
        };
        match made {
            Ok(link) => {
                self.given = self.given.and(&link, &());
                Ok(link)
            }
            Err(PortFault::Failed) => {
                self.faults = self.faults.saturating_add(1);
                Err(PortFault::Failed)
            }
            Err(PortFault::Memory) => Err(PortFault::Memory),
        }
    }

    fn close(&mut self, link: SocketLink<R>) -> Result<(), Memory> {
        self.returned = self.returned.and(&link, &());
        drop(link);
        Ok(())
    }
}

/// The next link that is made at the opened address.
fn next_link<R: Eprint + Copy + Drop>(
    runtime: &R,
    alloc: Global,
    opened: &Opened,
) -> Result<SocketLink<R>, PortFault> {
    let Ok(address) = opened.address.copy(alloc) else {
        return Err(PortFault::Memory);
    };
    match next(&opened.listener) {
        Ok(stream) => Ok(SocketLink::make(*runtime, address, stream, None)),
        Err(reason) => {
            tell_address_reason(runtime, &address, &reason);
            Err(PortFault::Failed)
        }
    }
}

/// The real dialer: it connects to a Unix socket at a path, or to a port of 127.0.0.1. Where nobody waits there, or
/// it fails, the system's reason is said on standard error. It notes and tells at which addresses it made links, which
/// wait for their peers for so many seconds, if there is a bound.
#[derive(Drop)]
pub struct SocketDialer<R> {
    runtime: R,
    within: Option<u32>,
    faults: u64,
    addresses: Log<Address, ()>,
}

impl<R> SocketDialer<R> {
    /// A dialer with no fault so far.
    pub fn make(runtime: R, within: Option<u32>) -> SocketDialer<R>
        ensures undialled { result.addresses.items ≡ [] }
        ensures none { result.faults ≡ 0 }
    {
        SocketDialer {
            runtime,
            within,
            faults: 0,
            addresses: Log::new(),
        }
    }
}

impl<
    R: Net<Listener = TcpListener, Stream = TcpStream> + Files + Eprint + Copy + Send + Drop,
> Dialer for SocketDialer<R> {
    type Made = SocketLink<R>;

    ghost faults = { λ dialer. dialer.faults };

    ghost dialled = { λ dialer. Some (noted dialer.addresses.items) };

    fn dial(&mut self, alloc: Global, address: &Address) -> Result<SocketLink<R>, PortFault> {
        let Ok(kept) = address.copy(alloc) else {
            return Err(PortFault::Memory);
        };
        match connect(&self.runtime, address, self.within) {
            Ok(stream) => {
                self.addresses = self.addresses.and(address, &());
                Ok(SocketLink::make(self.runtime, kept, stream, self.within))
            }
            Err(reason) => {
                tell_address_reason(&self.runtime, address, &reason);
                self.faults = self.faults.saturating_add(1);
                Err(PortFault::Failed)
            }
        }
    }
}

/// A connection to the socket that waits at the address. What is sent over it isn't held back for more to come. A read and
/// a write wait for so many seconds, if there is a bound.
fn connect<R: Net<Listener = TcpListener, Stream = TcpStream> + Files>(
    runtime: &R,
    address: &Address,
    within: Option<u32>,
) -> io::Result<Stream> {
    let wait = match within {
        Some(seconds) => Some(Duration::from_secs(u64::from(seconds))),
        None => None,
    };
    match address {
        Address::Unix(path) => {
            let Ok(path) = str::from_utf8(path.bytes()) else {
                return Err(Error::from(ErrorKind::InvalidInput));
            };
            let stream = UnixStream::connect(runtime, path)?;
            stream.set_read_timeout(wait)?;
            stream.set_write_timeout(wait)?;
            Ok(Stream::Unix(stream))
        }
        Address::Tcp(port) => {
            let there = SocketAddrV4::new(Ipv4Addr::LOCALHOST, *port);
            let stream = TcpStream::connect(runtime, there)?;
            stream.set_nodelay(true)?;
            stream.set_read_timeout(wait)?;
            stream.set_write_timeout(wait)?;
            Ok(Stream::Tcp(stream))
        }
    }
}

/// Says on standard error why a link that was made at the address failed: where its stream waits for so many seconds alone
/// and they passed, that no reply came.
fn tell_link_reason<R: Eprint>(
    runtime: &R,
    address: &Address,
    within: Option<u32>,
    reason: &Error,
) {
    let Some(seconds) = within else {
        return tell_address_reason(runtime, address, reason);
    };
    if reason.kind() != ErrorKind::WouldBlock {
        return tell_address_reason(runtime, address, reason);
    }
    match address {
        Address::Unix(path) => {
            if let Ok(path) = str::from_utf8(path.bytes()) {
                let _told = eprintln!(runtime; "taskflow: {path}: no reply within {seconds} s");
            }
        }
        Address::Tcp(port) => {
            let _told = eprintln!(runtime;
                "taskflow: 127.0.0.1:{port}: no reply within {seconds} s"
            );
        }
    }
}

/// Says on standard error why no socket could be made at the address, or why a link that was made there failed.
fn tell_address_reason<R: Eprint>(runtime: &R, address: &Address, reason: &Error) {
    match address {
        Address::Unix(path) => {
            if let Ok(path) = str::from_utf8(path.bytes()) {
                tell_reason(runtime, path, reason);
            }
        }
        Address::Tcp(port) => {
            let _told = eprintln!(runtime; "taskflow: 127.0.0.1:{port}: {reason}");
        }
    }
}

/// A socket that waits at the address, and whose file, if it has one, has this mode.
fn open<R: Net<Listener = TcpListener, Stream = TcpStream> + Files>(
    runtime: &R,
    address: &Address,
    mode: u32,
) -> io::Result<Listener> {
    match address {
        Address::Unix(path) => {
            let Ok(path) = str::from_utf8(path.bytes()) else {
                return Err(Error::from(ErrorKind::InvalidInput));
            };
            let listener = bind(runtime, path)?;
            if let Err(reason) = fs::set_permissions(
                runtime,
                path,
                <Permissions as PermissionsExt>::from_mode(mode),
            ) {
                let _gone = fs::remove_file(runtime, path);
                return Err(reason);
            }
            Ok(Listener::Unix(listener))
        }
        Address::Tcp(port) => {
            let here = SocketAddrV4::new(Ipv4Addr::LOCALHOST, *port);
            Ok(Listener::Tcp(TcpListener::bind(runtime, here)?))
        }
    }
}

/// A Unix socket that waits at the path, in place of one at which nobody answers.
fn bind<R: Net + Files>(runtime: &R, path: &str) -> io::Result<UnixListener> {
    match UnixListener::bind(runtime, path) {
        Ok(listener) => Ok(listener),
        Err(reason) => {
            if reason.kind() != ErrorKind::AddrInUse || !is_left_over(runtime, path) {
                return Err(reason);
            }
            fs::remove_file(runtime, path)?;
            UnixListener::bind(runtime, path)
        }
    }
}

/// Whether a Unix socket is at the path at which nobody answers.
fn is_left_over<R: Net + Files>(runtime: &R, path: &str) -> bool {
    match fs::symlink_metadata(runtime, path) {
        Ok(found) => {
            if !FileTypeExt::is_socket(&found.file_type()) {
                return false;
            }
        }
        Err(_) => return false,
    }
    match UnixStream::connect(runtime, path) {
        Ok(_) => false,
        Err(reason) => reason.kind() == ErrorKind::ConnectionRefused,
    }
}

/// The next connection; an interrupted wait goes on. What is sent over it isn't held back for more to come, where the
/// system agrees.
fn next(listener: &Listener) -> io::Result<Stream> {
    match listener {
        Listener::Unix(listener) => {
            let (stream, _) = listener.accept()?;
            Ok(Stream::Unix(stream))
        }
        Listener::Tcp(listener) => {
            let (stream, _) = listener.accept()?;
            let _slow = stream.set_nodelay(true);
            Ok(Stream::Tcp(stream))
        }
    }
}
