//! Where the service listens.
use command_faults::Fault;
use command_words::ServeOptions;
use log::error;
use logfmt::Logfmt;
use service_settings::{Address, address_of};
use service_tasks::Service;
use std::alloc::AllocGlobal;
use std::io;
use std::net::{Ipv4Addr, Net, SocketAddr, TcpListener, TcpStream};
use std::time::Clock;

/// Where the service is to listen: at the address of the command line, or else at that of the configuration.
pub fn listen_address<R: AllocGlobal>(
    rt: &R,
    options: &ServeOptions<'_>,
    service: &Service,
) -> Result<SocketAddr, Fault> {
    match options.listen {
        Some(listen) => listen_at(rt, listen),
        None => Ok(socket_of(service.listen())),
    }
}

/// Where a text of the command line says to listen.
fn listen_at<R: AllocGlobal>(rt: &R, listen: &str) -> Result<SocketAddr, Fault> {
    match address_of(listen) {
        Some(address) => Ok(socket_of(address)),
        None => Err(Fault::Told(format!(in rt.alloc();
            "allocd serve: {listen} is no address to listen at"
        )?)),
    }
}

/// The listener at an address, which is told where it cannot be had.
pub fn listener_at<R>(rt: &R, here: SocketAddr) -> Result<TcpListener, Fault>
where
    R: Net<Listener = TcpListener, Stream = TcpStream> + Clock + Eprint + Copy,
{
    match TcpListener::bind(rt, here) {
        Ok(listener) => Ok(listener),
        Err(error) => {
            log_failure(rt, here, &error);
            Err(error.into())
        }
    }
}

fn log_failure<R: Clock + Eprint + Copy>(rt: &R, here: SocketAddr, error: &io::Error) {
    error!(Logfmt(*rt); address:% = here; "nothing can listen there: {error}");
}

fn socket_of(address: Address) -> SocketAddr {
    let [a, b, c, d] = address.octets;
    SocketAddr::from((Ipv4Addr::new(a, b, c, d), address.port))
}
