//! What is said of the words before they are followed.
use sm_command_line::{Mode, Settings};
use std::io::IsTerminal;
use std::net::ToSocketAddrs;

/// Says on standard error that a rotator or a server can't be asked, and that messages or frames are waited for.
pub fn say_start(rt: &HostRuntime, settings: &Settings) {
    match settings.mode {
        Mode::Exec => {
            say_form(rt, settings.rotator.as_str());
            say_waiting(rt, "HTTP messages");
        }
        Mode::Serve => say_address(rt, settings.rotator.as_str()),
        Mode::Check => {}
        Mode::Drill => {}
        Mode::Agent => say_server(rt, settings.listen.as_str()),
        Mode::Ship => {}
        Mode::Follow => say_waiting(rt, "frames"),
    }
}

/// Whether a text is a host and a port.
fn is_address(text: &str) -> bool {
    match text.rsplit_once(':') {
        Some((host, port)) => !host.is_empty() && port.parse::<u16>().is_ok(),
        None => false,
    }
}

/// Says that a rotator is no address, and gives whether it is one.
fn say_form(rt: &HostRuntime, rotator: &str) -> bool {
    if rotator == "local" {
        return false;
    }
    let is_address = is_address(rotator);
    if !is_address {
        let _ = eprintln!(rt;
            "secretsd: the rotator {rotator} is neither local nor a host, a colon and a port: each step of a \
             rotation fails"
        );
    }
    is_address
}

/// Says that a rotator is no address, or that its name can't be found now. A run over a stream looks for no name, since
/// it may end before a rotator is asked.
fn say_address(rt: &HostRuntime, rotator: &str) {
    if !say_form(rt, rotator) {
        return;
    }
    if let Err(error) = rotator.to_socket_addrs(rt) {
        let _ = eprintln!(rt; "secretsd: the rotator {rotator} is not found now: {error}");
    }
}

/// Says that the server to ask is no address, or that its name can't be found now.
fn say_server(rt: &HostRuntime, server: &str) {
    if !is_address(server) {
        let _ = eprintln!(rt;
            "secretsd: the server {server} is not a host, a colon and a port: each question to it fails"
        );
    } else if let Err(error) = server.to_socket_addrs(rt) {
        let _ = eprintln!(rt; "secretsd: the server {server} is not found now: {error}");
    }
}

/// Says what is waited for, where somebody sits before it who may not know.
fn say_waiting(rt: &HostRuntime, what: &str) {
    if rt.stdin().is_terminal() {
        let _ = eprintln!(rt;
            "secretsd: waits for {what} on standard input, up to its end (Control-D); secretsd --help says what else \
             it does"
        );
    }
}
