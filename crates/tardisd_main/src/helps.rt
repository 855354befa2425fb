//! What the server tells of itself.

ghost use Rattle.std.specs.Prelude.{◌≡◌};

use command_words::Help;

/// The lines that are written.
pub fn help_text(help: Help) -> &'static str
    ensures usage { help ≡ Help.Usage → result.now ≡ USAGE.now }
    ensures version { help ≡ Help.Version → result.now ≡ VERSION.now }
{
    match help {
        Help::Usage => USAGE,
        Help::Version => VERSION,
    }
}

/// What the server tells of its version.
pub const VERSION: &str = "tardisd 0.1.0\n";

/// What it tells of its words.
pub const USAGE: &str = "\
tardisd: serves one site of a branch-and-merge key-value store to many clients

usage: tardisd DOOR.. [--mode MODE] [--idle SECONDS]
               [--connections N] [--sessions N] [--states N]
               [--peer ADDR.. [--every SECONDS]]
               [--sites M] [--site N] [--keep-history] [--file PATH]
               [--rules RULES [--join-after SECONDS]]
                            serve at 1 to 8 doors, as site N of M sites (1 of 1),
                            until it is killed; states that nobody reads at any
                            more are collected, unless --keep-history is said;
                            with --file the site is kept in that file, made where
                            there is none, and goes on from it at the next start;
                            with --rules two branches are joined wherever these
                            settle all keys in which they conflict, those of other
                            sites only after 30 seconds, or as many as
                            --join-after says, from 1 to 86400 (docs/RULES.md)
       tardisd --check --file PATH
                            tell what that file has and whether it is good; it
                            is only read
       tardisd --help       this text, as do -h and help
       tardisd --version    the version

doors: --listen ADDR        all that there is may be asked
       --clients ADDR       for clients: sessions, transactions, merges, reads
       --peers ADDR         for other sites: they may fetch, and nothing else
                            ADDR is unix:PATH, which is its owner's alone, or
                            HOST:PORT, which is everybody's who reaches it
       --mode MODE          the mode of those that are Unix sockets, in three or
                            four octal digits (0600)
       --idle SECONDS       a connection that asks nothing for so long, from 1 to
                            86400, is ended

room:  --connections N      so many connections at once, at all doors together,
                            from 1 to 4096 (256); one more is told so and ended
       --sessions N         so many open sessions, from 1 to 4096 (256)
       --states N           so many kept states, from 1 to 65000 (16384)

peers: --peer ADDR          fetch what is new from the site at this address, a
                            door for all or for peers, at most 15 times
       --every SECONDS      so long after it was done, from 1 to 86400 (5)

Requests and replies are described in docs/FORMATS.md, statuses in docs/COMMANDS.md.
";
