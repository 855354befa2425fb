//! Laws of the forms.

ghost use Rattle.command_words.specs.Laws.{AuditsAtASite, AutosAtASite, DurablesAtASite, ExportsAtASite, RunsAtASite, ServesAtASite, ShellsAtASite};

/// Words that have the form of `run`, `shell`, `audit`, `serve`, `auto`, `durable` or `export` name a site of 1 to 16 sites.
/// Those of `serve` ask for at most 64 links, 15 peers and 1,000,000 rounds. This call does nothing.
pub fn commands_are_at_a_site()
    ensures run { RunsAtASite }
    ensures shell { ShellsAtASite }
    ensures audit { AuditsAtASite }
    ensures serve { ServesAtASite }
    ensures auto { AutosAtASite }
    ensures durable { DurablesAtASite }
    ensures export { ExportsAtASite }
{}
