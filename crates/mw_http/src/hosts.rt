//! Tests whether the value of a `Host` field is a host and maybe a port, and whether the server is called by that
//! host.
//!
//! Used by: `hearing`. Change it with `specs/Hosts` and docs/HTTP.
ghost use Rattle.std.specs.Prelude.{◌≡◌, ◌≤◌, length, map, All};
ghost use Rattle.std.specs.List.{list_all, list_any, prefix_len};
ghost use Rattle.std.specs.Char.{is_ascii_digit};
ghost use Rattle.std.specs.Prelude.{string_bytes};
ghost use Rattle.http1.specs.Text.{eq_ignore_case as same_in_any_case};
ghost use Rattle.httparse.specs.Spans.{IsHeaderWithin, header_bytes};
ghost use Rattle.mw_http.specs.Hosts as spec;

use crate::texts::len_before;
use http1::text::eq_ignore_case;
use httparse::spans::HeaderSpan;

/// Tells whether each field `Host` of a head has the value of one.
pub(crate) fn have_valid_hosts(head: &[u8], fields: &[HeaderSpan]) -> bool
    requires { All (IsHeaderWithin (length head.now)) fields.now }
    ensures { result ≡ list_all spec.is_valid_field (map (header_bytes head.now) fields.now) }
{
    for field in fields {
        if !is_valid_field(head, field) {
            return false;
        }
    }
    true
}

fn is_valid_field(head: &[u8], field: &HeaderSpan) -> bool
    requires { IsHeaderWithin (length head.now) field.now }
    ensures { result ≡ spec.is_valid_field (header_bytes head.now field.now) }
{
    !eq_ignore_case(field.name.of(head), b"host") || is_host(field.value.of(head))
}

#[tactic(auto, unfolding(crate::specs::Hosts::is_host))]
fn is_host(value: &[u8]) -> bool
    ensures { result ≡ spec.is_host value.now }
{
    if value.is_empty() || value[0] != b'[' {
        return is_port(&value[name_len(value)..]);
    }
    is_literal(&value[1..])
}

fn is_literal(rest: &[u8]) -> bool
    ensures { result ≡ spec.is_literal rest.now }
{
    let len = address_len(rest);
    len > 0 && len < rest.len() && rest[len] == b']' && is_port(&rest[len + 1..])
}

fn is_port(text: &[u8]) -> bool
    ensures { result ≡ spec.is_port text.now }
{
    text.is_empty() || (text[0] == b':' && are_digits(&text[1..]))
}

fn are_digits(text: &[u8]) -> bool
    ensures { result ≡ list_all is_ascii_digit text.now }
{
    text.iter().all(|byte| byte.is_ascii_digit())
}

fn name_len(value: &[u8]) -> usize
    ensures name { result ≡ prefix_len spec.is_name_byte value.now }
    ensures within { result ≤ length value.now }
{
    for at in 0..value.len() {
        if !is_name_byte(value[at]) {
            return at;
        }
    }
    value.len()
}

fn address_len(rest: &[u8]) -> usize
    ensures address { result ≡ prefix_len spec.is_address_byte rest.now }
    ensures within { result ≤ length rest.now }
{
    for at in 0..rest.len() {
        if !is_address_byte(rest[at]) {
            return at;
        }
    }
    rest.len()
}

fn is_name_byte(byte: u8) -> bool
    ensures { result ≡ spec.is_name_byte byte }
{
    byte.is_ascii_alphanumeric()
        || matches!(byte, b'-' | b'.' | b'_' | b'~' | b'%' | b'!' | b'$' | b'&')
        || matches!(byte, b'\'' | b'(' | b')' | b'*' | b'+' | b',' | b';' | b'=')
}

fn is_address_byte(byte: u8) -> bool
    ensures { result ≡ spec.is_address_byte byte }
{
    byte.is_ascii_hexdigit() || byte == b':' || byte == b'.'
}

/// Tells whether each field `Host` of a head has a host by which a server with these names is called.
pub(crate) fn have_own_hosts(head: &[u8], fields: &[HeaderSpan], names: &[String]) -> bool
    requires { All (IsHeaderWithin (length head.now)) fields.now }
    ensures { result ≡ list_all (spec.is_own_field (map string_bytes names.now)) (map (header_bytes head.now) fields.now) }
{
    for field in fields {
        if !is_own_field(head, field, names) {
            return false;
        }
    }
    true
}

fn is_own_field(head: &[u8], field: &HeaderSpan, names: &[String]) -> bool
    requires { IsHeaderWithin (length head.now) field.now }
    ensures { result ≡ spec.is_own_field (map string_bytes names.now) (header_bytes head.now field.now) }
{
    !eq_ignore_case(field.name.of(head), b"host") || is_own_host(field.value.of(head), names)
}

#[tactic(auto, unfolding(crate::specs::Hosts::is_own_host))]
fn is_own_host(value: &[u8], names: &[String]) -> bool
    ensures { result ≡ spec.is_own_host (map string_bytes names.now) value.now }
{
    value.is_empty() || value[0] == b'[' || is_own_name(&value[..len_before(value, b':')], names)
}

#[tactic(auto, unfolding(crate::specs::Hosts::is_own_name))]
fn is_own_name(name: &[u8], names: &[String]) -> bool
    ensures { result ≡ spec.is_own_name (map string_bytes names.now) name.now }
{
    are_number_bytes(name) || eq_ignore_case(name, b"localhost") || is_one_of(name, names)
}

fn is_one_of(name: &[u8], names: &[String]) -> bool
    ensures { result ≡ spec.is_one_of (map string_bytes names.now) name.now }
{
    for own in names {
        if eq_ignore_case(own.as_bytes(), name) {
            return true;
        }
    }
    false
}

fn are_number_bytes(text: &[u8]) -> bool
    ensures { result ≡ list_all spec.is_number_byte text.now }
{
    text.iter()
        .all(|byte| byte.is_ascii_digit() || *byte == b'.')
}
