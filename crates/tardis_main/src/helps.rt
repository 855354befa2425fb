//! What the program tells of itself.

ghost use Rattle.std.specs.Prelude.{◌≡◌};

use command_words::Help;

/// The lines that are written.
pub fn help_text(help: Help) -> &'static str
    ensures usage { help ≡ Help.Usage → result.now ≡ USAGE.now }
    ensures version { help ≡ Help.Version → result.now ≡ VERSION.now }
{
    match help {
        Help::Usage => USAGE,
        Help::Version => VERSION,
    }
}

/// What the program tells of its version.
pub const VERSION: &str = "tardis 0.1.0\n";

/// What it tells of its commands.
pub const USAGE: &str = "\
tardis: one site of a branch-and-merge key-value store

usage: tardis shell [--sites M] [--site N]
                          read lines of requests from standard input, and write a
                          line with the reply to each on standard output
       tardis run [--sites M] [--site N]
                          the same for frames of requests and of replies
       tardis audit [--sites M] [--site N]
                          read frames, and write for each a line with the request,
                          an arrow and the reply
       tardis world --sites M
                          read frames of requests at M sites and of items that are
                          carried between them, and write a frame with each reply
       tardis load --start S --steps N
                          play a script of N steps, up to 10000, that S determines,
                          and write a line that tells how it went
       tardis serve --listen ADDR --links L [--sites M] [--site N]
                    [--peer ADDR].. [--rounds R] [--tidy]
                          serve L clients, from 1 to 64, at once, each over a link to
                          ADDR (unix:PATH or HOST:PORT), make R rounds of exchange
                          with the peers beside that, each with a collection or
                          without, and then write all that was asked as frames for
                          tardis run
       tardis auto --rules RULES [--sites M] [--site N]
                          as shell, with a line N auto, which merges two branches by
                          rules for keys by their prefixes (docs/RULES.md)
       tardis durable --file PATH [--sites M] [--site N]
                          as run, with a journal in the file: each reply is written
                          once its request is on the disk (docs/DURABLE.md)
       tardis export --at ID [--sites M] [--site N]
                          read frames as run does, and then write what the state of
                          this id holds, key by key
       tardis import      read an export, and write frames for tardis run that bring a
                          fresh site to the same contents
       tardis --help      this text
       tardis --version   the version

Shell, run, audit, serve, auto, durable and export answer as site N, from 1 to M, of M sites, from 1 to 16;
both are 1 where they are left out. Try: printf '1 open\\n1 begin any\\n1 put cart milk\\n' | tardis shell

Lines and frames are described in docs/FORMATS.md, the commands, with a session of
lines, and the statuses in docs/COMMANDS.md.
";
