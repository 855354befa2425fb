//! Worked rows: an actor, the bytes of its request, those of the reply, and both in words.

/// Bytes that are answered, some of them malformed.
pub const TALK: &str = "\
1 0100         01000000000000               open => opened 0.0
1 0200         02000000000000               begin any => begun 0.0
1 040178000131 07                           put x 1 => done
1 06010000     0800010000000101000000000000 commit ser => committed 1.1 from 0.0
1 0200         02000100000001               begin any => begun 1.1
1 030178       04000100000001000131         get x => value 1.1 1
1 030179       06                           get y => absent
1 ff           1501                         no request => refused malformed
1 0300         1501                         a key of no bytes => refused malformed
1 0204         1501                         a fifth kind of begin => refused malformed
1 020100       1501                         a byte is left over => refused malformed
1 06010001     1501                         a number without its flag => refused malformed
2 0201         1502                         begin ancestor => refused notopen
2 0c00000000   1501                         a state of four bytes => refused malformed
2 0f00000001   1501                         tidy, two bytes left over => refused malformed
2 0fffff       0d00000000                   tidy 65535 => tidied 0";

/// Two sessions read both keys, and each writes another one. Then the second commits.
pub const SKEWED: &str = "\
1 0100         01000000000000               open => opened 0.0
2 0100         01000000000000               open => opened 0.0
1 0200         02000000000000               begin any => begun 0.0
2 0200         02000000000000               begin any => begun 0.0
1 030178       06                           get x => absent
1 030179       06                           get y => absent
2 030178       06                           get x => absent
2 030179       06                           get y => absent
1 040178000131 07                           put x 1 => done
2 040179000132 07                           put y 2 => done
1 06010000     0800010000000101000000000000 commit ser => committed 1.1 from 0.0";

pub const SER_FORKS: &str = "\
2 06010000 0800010000000201000000000000 commit ser => committed 1.2 from 0.0";

pub const SI_PASSES: &str = "\
2 06020000 0800010000000201000100000001 commit si => committed 1.2 from 1.1";

pub const NB_REFUSES: &str = "\
2 06050000 150f0400000000000000000001   commit ser+nb => refused branches nb 0.0 1
2 06020000 0800010000000201000100000001 commit si => committed 1.2 from 1.1";

/// Session 2 reads `x` before session 1 commits it twice, and forks.
pub const BEHIND: &str = "\
1 0100         01000000000000               open => opened 0.0
2 0100         01000000000000               open => opened 0.0
2 0200         02000000000000               begin any => begun 0.0
2 030178       06                           get x => absent
2 04017a000139 07                           put z 9 => done
1 0200         02000000000000               begin any => begun 0.0
1 040178000131 07                           put x 1 => done
1 06010000     0800010000000101000000000000 commit ser => committed 1.1 from 0.0
1 0200         02000100000001               begin any => begun 1.1
1 040178000132 07                           put x 2 => done
1 06010000     0800010000000201000100000001 commit ser => committed 1.2 from 1.1
2 06010000     0800010000000301000000000000 commit ser => committed 1.3 from 0.0";

pub const ANY_AFTER: &str = "\
2 0200   02000100000003 begin any => begun 1.3
2 030178 06             get x => absent";

pub const AT_AFTER: &str = "\
2 0203000100000003 02000100000003                           begin at 1.3 => begun 1.3
2 030178           06                                       get x => absent
0 11000100000002   0f0000000000000002000000000000000100000000000000000000 show 1.2 => shown 2 children 0 path 1 0.0:0
0 11000100000003   0f0000000000000003000000000000000100000000000000000001 show 1.3 => shown 3 children 0 path 1 0.0:1
0 11000000000000   0f00000000000000000000000200010000000100010000000300000000 show 0.0 => shown 0 children 2 1.1 1.3 path 0
0 11000100000009   1509000100000009                         show 1.9 => refused unknown 1.9
2 03017a           04000100000003000139                     get z => value 1.3 9
2 05017a           07                                       del z => done
2 03017a           05000000000000                           get z => deleted 0.0
2 06010000         0800010000000401000100000003             commit ser => committed 1.4 from 1.3
2 0200             02000100000004                           begin any => begun 1.4
2 03017a           05000100000004                           get z => deleted 1.4";

/// A commit whose reads are untouched ripples down a chain.
pub const RIPPLE: &str = "\
1 0100         01000000000000               open => opened 0.0
2 0100         01000000000000               open => opened 0.0
2 0200         02000000000000               begin any => begun 0.0
2 030161       06                           get a => absent
2 040162000131 07                           put b 1 => done
1 0200         02000000000000               begin any => begun 0.0
1 040170000131 07                           put p 1 => done
1 06010000     0800010000000101000000000000 commit ser => committed 1.1 from 0.0
1 0200         02000100000001               begin any => begun 1.1
1 040171000131 07                           put q 1 => done
1 06010000     0800010000000201000100000001 commit ser => committed 1.2 from 1.1
2 06010000     0800010000000301000100000002 commit ser => committed 1.3 from 1.2";

/// Three sessions that conflict, with bounds on branches.
pub const COUNTED: &str = "\
1 0100         01000000000000               open => opened 0.0
2 0100         01000000000000               open => opened 0.0
3 0100         01000000000000               open => opened 0.0
1 0200         02000000000000               begin any => begun 0.0
2 0200         02000000000000               begin any => begun 0.0
3 0200         02000000000000               begin any => begun 0.0
1 030178       06                           get x => absent
2 030178       06                           get x => absent
3 030178       06                           get x => absent
1 040178000131 07                           put x 1 => done
2 040178000132 07                           put x 2 => done
3 040178000133 07                           put x 3 => done
1 06010000     0800010000000101000000000000 commit ser => committed 1.1 from 0.0
2 06090001     150f0800000000000000000001   commit ser+kb:1 => refused branches kb 0.0 1
2 06090002     0800010000000201000000000000 commit ser+kb:2 => committed 1.2 from 0.0
3 06090002     150f0800000000000000000002   commit ser+kb:2 => refused branches kb 0.0 2
3 06090003     0800010000000301000000000000 commit ser+kb:3 => committed 1.3 from 0.0";

/// Where transactions begin after commits.
pub const LAST_COMMITS: &str = "\
1 0100         01000000000000               open => opened 0.0
2 0100         01000000000000               open => opened 0.0
1 0200         02000000000000               begin any => begun 0.0
1 040170000131 07                           put p 1 => done
1 06010000     0800010000000101000000000000 commit ser => committed 1.1 from 0.0
2 0200         02000100000001               begin any => begun 1.1
2 040171000131 07                           put q 1 => done
2 06010000     0800010000000201000100000001 commit ser => committed 1.2 from 1.1
1 0202         02000100000001               begin parent => begun 1.1
1 0200         1505                         begin any => refused txnopen
1 07           07                           abort => done
1 0201         02000100000002               begin ancestor => begun 1.2
3 0100         01000000000000               open => opened 0.0
3 0202         02000000000000               begin parent => begun 0.0";

/// A transaction without writes makes no state; what is refused around it.
pub const NO_STATE: &str = "\
1 0100     01000000000000                           open => opened 0.0
1 0200     02000000000000                           begin any => begun 0.0
1 030178   06                                       get x => absent
1 06010000 09000000000000                           commit ser => ended 0.0
0 10       0e000000000000000100000001000000010001010000000000000000000000000000 stat => stat known 1 kept 1 leaves 1 sessions 1 sites 1 0:0.0:0
1 06010000 1506                                     commit ser => refused notxn
4 030178   1502                                     get x => refused notopen
1 0100     1503                                     open => refused alreadyopen
1 0200     02000000000000                           begin any => begun 0.0
1 15       14                                       close => closed
1 030178   1502                                     get x => refused notopen
1 0100     01000000000000                           open => opened 0.0
1 030178   1506                                     get x => refused notxn";

/// A session opens and begins.
pub const BEGUN: &str = "\
1 0100 01000000000000 open => opened 0.0
1 0200 02000000000000 begin any => begun 0.0";

/// After 256 reads and 64 writes.
pub const PAST_LIMITS: &str = "\
1 0303323537     15080200000101               get 257 => refused toomany reads 257
1 0301ff         06                           get #ff => absent
1 04023635000131 15080100000041               put 65 1 => refused toomany writes 65
1 04013f000132   07                           put #3f 2 => done
1 03013f         04000000000000000132         get #3f => value 0.0 2
1 06010000       0800010000000101000000000000 commit ser => committed 1.1 from 0.0";

/// A site of three states.
pub const FULL_SITE: &str = "\
1 0100         01000000000000               open => opened 0.0
1 0200         02000000000000               begin any => begun 0.0
1 040178000131 07                           put x 1 => done
1 06010000     0800010000000101000000000000 commit ser => committed 1.1 from 0.0
1 0200         02000100000001               begin any => begun 1.1
1 040178000132 07                           put x 2 => done
1 06010000     0800010000000201000100000001 commit ser => committed 1.2 from 1.1
1 0200         02000100000002               begin any => begun 1.2
1 040178000133 07                           put x 3 => done
1 06010000     151400000003                 commit ser => refused full 3
1 030178       04000000000000000133         get x => value 0.0 3";

/// A site of one session.
pub const SECOND_SESSION: &str = "\
1 0100 01000000000000 open => opened 0.0
2 0100 15040001       open => refused sessionsfull 1";

/// A site whose fork paths have one pair at most.
pub const LONG_PATH: &str = "\
1 0100             01000000000000               open => opened 0.0
2 0100             01000000000000               open => opened 0.0
1 0200             02000000000000               begin any => begun 0.0
2 0200             02000000000000               begin any => begun 0.0
2 030178           06                           get x => absent
1 040178000131     07                           put x 1 => done
2 040178000132     07                           put x 2 => done
1 06010000         0800010000000101000000000000 commit ser => committed 1.1 from 0.0
2 06010000         0800010000000201000000000000 commit ser => committed 1.2 from 0.0
1 0203000100000001 02000100000001               begin at 1.1 => begun 1.1
2 0203000100000001 02000100000001               begin at 1.1 => begun 1.1
2 030178           04000100000001000131         get x => value 1.1 1
1 040178000133     07                           put x 3 => done
2 040178000134     07                           put x 4 => done
1 06010000         0800010000000301000100000001 commit ser => committed 1.3 from 1.1
2 06010000         151500010000000300000002     commit ser => refused pathfull 1.3 2";

/// Site 3 of 16, which has made no state, and then makes one.
pub const ONE_OF_16: &str = "\
0 10           0e00000000000000010000000100000001000010000000000000000000000000000000000000000000000000000000000000000000000000000000000000\
    0000000000000000000000000000000000000000000000000000000000000000000000000000000000000000000000000000000000000000000000000000000000000000\
    0000000000000000000000000000000000000000000000000000000000000000000000000000000000000000000000000000000000000000000000000000000000000000\
    00000000000000000000000000000000000000000000000000000000000000000000000000000000000000000000 stat => stat known 1 kept 1 leaves 1 sessions 0 sites 16
1 0100         01000000000000                           open => opened 0.0
1 0200         02000000000000                           begin any => begun 0.0
1 040178000131 07                                       put x 1 => done
1 06010000     0800030000000101000000000000             commit ser => committed 3.1 from 0.0";

/// After a chain of 200 commits of `k`.
pub const LOOKING_BACK: &str = "\
1 0203000100000025 02000100000025                           begin at 1.37 => begun 1.37
1 03016b           0400010000002500023337                   get k => value 1.37 37
1 07               07                                       abort => done
1 0203000000000000 02000000000000                           begin at 0.0 => begun 0.0
1 03016b           06                                       get k => absent
0 10               0e00000000000000c9000000c900000001000101000000c800000000000000000000 stat => stat known 201 kept 201 leaves 1 sessions 1 sites 1 200:0.0:0";
