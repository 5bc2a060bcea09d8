// What `sframe version` prints. The version is decided in bindings/rust/Cargo.toml; a test holds this text to it.
use crate::console::Console;
use crate::say::say;

pub fn show_version(console: &Console) {
    say(console, "sframe 0.6.1\n");
}
