//! Ports of this machine.

ghost use Rattle.without_books.specs.Ports.{IsLoopback};

use std::io;
use std::net::{IpAddr, Ipv4Addr, SocketAddr, TcpListener};

/// Takes a port of this machine, to which no other machine can connect.
pub fn listen_here(rt: &HostRuntime, port: u16) -> io::Result<TcpListener> {
    let address = SocketAddr::new(IpAddr::V4(Ipv4Addr::new(127, 0, 0, 1)), port);
    bind(rt, address)
}

/// The only place where an address is taken.
fn bind(rt: &HostRuntime, address: SocketAddr) -> io::Result<TcpListener>
    requires { IsLoopback address }
{
    TcpListener::bind(rt, address)
}
