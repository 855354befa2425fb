//! Reading the words of a command.

ghost use Rattle.std.specs.Prelude.{◌≡◌, IfOk, IfSome, Some, None, Err, false, map, option_map, bytes_eq, codes};
ghost use Rattle.std.specs.String.{string_bytes};
ghost use Rattle.command_words.specs.Settings.{settings};
ghost use Rattle.command_words.specs.Forms.{form, form_behind, serving, Form, AsServe};
ghost use Rattle.command_words.specs.Commands.{form_of};
ghost use Rattle.command_words.specs.Places.{HasPlace};
ghost use Rattle.command_words.specs.Readings.{IsCopied, IsReading};

use crate::commands::{Command, WordsFault};
use crate::forms::{read_load, read_place_alone, read_serving, read_world};
use crate::placed::{read_auto, read_durable, read_export};
use crate::settings::are_only;
use std::alloc::Global;

/// Reads the words behind the program's name. Only `serve`, `auto` and `durable` take memory. The time is in proportion to
/// how many words there are, and for `auto` to the length of its rules.
pub fn read_words(alloc: Global, words: &[String]) -> Result<Command, WordsFault>
    ensures form { IfOk result (λ command. form (map (λ w. string_bytes w) words.now) ≡ Some (form_of command)) }
    ensures place { IfOk result (λ command. HasPlace command) }
    ensures usage { result ≡ Err WordsFault.Usage → form (map (λ w. string_bytes w) words.now) ≡ None }
    ensures memory { result ≡ Err WordsFault.NoMemory → (said : Form) × ((form (map (λ w. string_bytes w) words.now) ≡ Some said) × IsCopied said) }
{
    let [command, options @ ..] = words else {
        return Err(WordsFault::Usage);
    };
    read_command(alloc, command.as_str(), options)
}

/// Reads the options of a command.
fn read_command(alloc: Global, command: &str, options: &[String]) -> Result<Command, WordsFault>
    ensures { IsReading (form_behind command.now (settings (map (λ w. string_bytes w) options.now))) result }
{
    match command {
        "serve" => read_serve(alloc, options),
        "auto" => read_auto(alloc, options),
        "durable" => read_durable(alloc, options),
        _ => match read_other(command, options) {
            Some(command) => Ok(command),
            None => Err(WordsFault::Usage),
        },
    }
}

/// Reads the options of `serve`.
fn read_serve(alloc: Global, options: &[String]) -> Result<Command, WordsFault>
    ensures { IsReading (option_map AsServe (serving (settings (map (λ w. string_bytes w) options.now)))) result }
{
    match read_serving(alloc, options) {
        Ok(plan) => Ok(Command::Serve(plan)),
        Err(WordsFault::Usage) => Err(WordsFault::Usage),
        Err(WordsFault::NoMemory) => Err(WordsFault::NoMemory),
    }
}

/// Reads the options of a command that takes no memory.
fn read_other(command: &str, options: &[String]) -> Option<Command>
    ensures place { IfSome result (λ read. HasPlace read) }
    ensures form { bytes_eq command.now (codes "serve") ≡ false
        → bytes_eq command.now (codes "auto") ≡ false
        → bytes_eq command.now (codes "durable") ≡ false
        → option_map form_of result ≡ form_behind command.now (settings (map (λ w. string_bytes w) options.now)) }
{
    match command {
        "run" => Some(Command::Run(read_place_alone(options)?)),
        "shell" => Some(Command::Shell(read_place_alone(options)?)),
        "audit" => Some(Command::Audit(read_place_alone(options)?)),
        _ => read_rest(command, options),
    }
}

/// Reads the options of the commands that are left.
fn read_rest(command: &str, options: &[String]) -> Option<Command>
    ensures place { IfSome result (λ read. HasPlace read) }
    ensures form { bytes_eq command.now (codes "serve") ≡ false
        → bytes_eq command.now (codes "auto") ≡ false
        → bytes_eq command.now (codes "durable") ≡ false
        → bytes_eq command.now (codes "run") ≡ false
        → bytes_eq command.now (codes "shell") ≡ false
        → bytes_eq command.now (codes "audit") ≡ false
        → option_map form_of result ≡ form_behind command.now (settings (map (λ w. string_bytes w) options.now)) }
{
    match command {
        "world" => {
            let sites = read_world(options)?;
            Some(Command::World { sites })
        }
        "load" => {
            let (start, steps) = read_load(options)?;
            Some(Command::Load { start, steps })
        }
        "export" => {
            let (place, state) = read_export(options)?;
            Some(Command::Export { place, state })
        }
        "import" => {
            if are_only(options, &[]) {
                Some(Command::Import)
            } else {
                None
            }
        }
        _ => None,
    }
}
