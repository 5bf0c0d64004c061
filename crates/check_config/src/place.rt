//! Where the fault of a configuration is.
ghost use Rattle.std.specs.Prelude.{◌≡◌, ◌&&◌, ◌||◌, true};
ghost use Rattle.check_config.specs.Faults as spec;

use crate::fault::ConfigFault;

// Whether a byte can be one of a key or of a rule's name.
fn is_name_byte(byte: u8) -> bool
    ensures { result ≡ spec.is_name_byte byte }
{
    byte.is_ascii_alphanumeric() || byte == b'-' || byte == b'_'
}

// Whether a text begins with a name that goes no further.
fn begins_with_name(text: &[u8], name: &[u8]) -> bool
    ensures { result ≡ spec.begins_with_name name.now text.now }
{
    if !text.starts_with(name) {
        return false;
    }
    match text.get(name.len()) {
        Some(byte) => !is_name_byte(*byte),
        None => true,
    }
}

// Whether what is left of a text begins with a name, where that counts: anywhere, or where a line begins.
fn is_here(text: &[u8], name: &[u8], anywhere: bool, begins_line: bool) -> bool
    ensures { result ≡ ((anywhere || begins_line) && spec.begins_with_name name.now text.now) }
{
    (anywhere || begins_line) && begins_with_name(text, name)
}

// Where a text first has a name: anywhere, or where a line begins with it.
fn first_place(text: &[u8], name: &[u8], anywhere: bool) -> Option<usize>
    ensures { result ≡ spec.place_from anywhere name.now text.now true 0 }
{
    let mut begins_line = true;
    for i in 0..text.len() {
        if is_here(&text[i..], name, anywhere, begins_line) {
            return Some(i);
        }
        begins_line = text[i] == b'\n';
    }
    None
}

// Where a name is: at the first line that begins with it, or else at its first place, or else at the start.
fn name_place(text: &[u8], name: &[u8]) -> usize
    ensures { result ≡ spec.name_place name.now text.now }
{
    match first_place(text, name, false) {
        Some(at) => at,
        None => first_place(text, name, true).unwrap_or(0),
    }
}

/// The byte of a text at which its fault is: where its bytes are not TOML, or where the key or the rule is that is at fault. That is the
/// first line that begins with this name, or else the name's first place; 0 where a text has it nowhere.
pub fn fault_place(text: &str, fault: &ConfigFault) -> usize
    ensures { result ≡ spec.fault_place fault.now text.now }
{
    match fault {
        ConfigFault::NotToml(at, _) => *at,
        ConfigFault::UnknownKey(name)
        | ConfigFault::UnknownRule(name)
        | ConfigFault::BadValue(name) => { name_place(text.as_bytes(), name.as_str().as_bytes()) }
    }
}
