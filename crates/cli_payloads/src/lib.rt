// The payload of a record for people: as text where it is text, as hexadecimal digits where it is not.
#![tactic(auto)]

ghost use Rattle.std.specs.Prelude.{◌≡◌, true};

use cli_console::Output;
use utf8_shown::is_text;

fn say_bytes(output: Output, payload: &[u8]) -> Output
    ensures { output.failed ≡ true → result.failed ≡ true }
{
    let mut said = output;
    for b in payload {
        said = said.text(b" ").byte(*b);
    }
    said
}

// Once a write has failed, nothing more is written.
pub fn say_payload(output: Output, payload: &[u8]) -> Output
    ensures { output.failed ≡ true → result.failed ≡ true }
{
    if payload.is_empty() {
        return output.text(b" empty");
    }
    if is_text(payload) {
        return output.text(b" text ").text(payload);
    }
    say_bytes(output.text(b" bytes"), payload)
}
