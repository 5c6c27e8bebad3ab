//! Who may attach: a peer that asks for this machine by an address or as `localhost`, and no page but one of this machine.
//!
//! A browser lets a page of any site open a WebSocket to any address, and says in `Origin` which site it is. A page of a name that
//! was led to this machine's address is told by its `Host`. A program sends no `Origin`, and is none of both.

ghost use Rattle.std.specs.Prelude.{◌≡◌, None, Some, MatchOption};
ghost use Rattle.ws_link.specs.Strangers.{port_at, host_in, port_in, is_port, is_localhost, is_address, is_right_host, is_own, is_own_authority, is_own_behind, behind_scheme, is_right_origin};
ghost use Rattle.std.specs.List.{list_all};
ghost use Rattle.text_core.specs.Digits.{is_digit};

use text_core::is_digit;

/// Whether these bytes are digits.
fn are_digits(bytes: &[u8]) -> bool
    ensures { result ≡ list_all is_digit bytes.now }
{
    bytes.iter().all(|byte| is_digit(*byte))
}

/// Whether this is a port behind a host, or nothing.
fn is_port(bytes: &[u8]) -> bool
    ensures { result ≡ is_port bytes.now }
{
    match bytes {
        [] => true,
        [byte, digits @ ..] => *byte == b':' && are_digits(digits),
    }
}

/// Where the first colon is.
fn port_at(authority: &[u8]) -> Option<usize>
    ensures { result ≡ port_at authority.now }
{
    authority.iter().position(|byte| *byte == b':')
}

/// A host, and what stands behind it from the first colon on.
fn parts_of(authority: &[u8]) -> (&[u8], &[u8])
    ensures host { result.0.now ≡ host_in authority.now }
    ensures port { result.1.now ≡ port_in authority.now }
{
    match port_at(authority) {
        Some(place) => authority.split_at(place),
        None => (authority, &[]),
    }
}

/// Whether a host is the name of this machine for itself.
fn is_localhost(host: &[u8]) -> bool
    ensures { result ≡ is_localhost host.now }
{
    host == b"localhost".as_slice()
}

/// Whether a host is digits and dots.
fn is_address(host: &[u8]) -> bool
    ensures { result ≡ is_address host.now }
{
    host.iter().all(|byte| is_digit(*byte) || *byte == b'.')
}

/// Whether a peer may name this host, with or without a port.
pub fn is_right_host(authority: &[u8]) -> bool
    ensures { result ≡ is_right_host authority.now }
{
    if let [b'[', ..] = authority {
        return true;
    }
    let (host, port) = parts_of(authority);
    (is_localhost(host) || is_address(host)) && is_port(port)
}

/// Whether a host is one that this machine alone has.
fn is_own(host: &[u8]) -> bool
    ensures { result ≡ is_own host.now }
{
    is_localhost(host) || host.starts_with(b"127.") && is_address(host)
}

/// Whether this is such a host, with or without a port.
fn is_own_authority(authority: &[u8]) -> bool
    ensures { result ≡ is_own_authority authority.now }
{
    if authority.starts_with(b"[::1]") && is_port(authority.split_at(5).1) {
        return true;
    }
    let (host, port) = parts_of(authority);
    is_own(host) && is_port(port)
}

/// What stands behind the scheme of an origin.
fn behind_scheme(origin: &[u8]) -> Option<&[u8]>
    ensures { MatchOption result (behind_scheme origin.now ≡ None) (λ rest. behind_scheme origin.now ≡ Some rest.now) }
{
    if origin.starts_with(b"http://") {
        Some(origin.split_at(7).1)
    } else if origin.starts_with(b"https://") {
        Some(origin.split_at(8).1)
    } else {
        None
    }
}

/// Whether a page may come from this origin.
pub fn is_right_origin(origin: &[u8]) -> bool
    ensures { result ≡ is_right_origin origin.now }
{
    match behind_scheme(origin) {
        Some(authority) => is_own_authority(authority),
        None => false,
    }
}
