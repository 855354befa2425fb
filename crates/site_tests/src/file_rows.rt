//! Worked rows of sites that start again from their files, each as one connection asks them: an actor, the bytes of its request,
//! those of the reply, and both in words. A server reads no actor from a connection, so that column says nothing here.

/// A commit, and a transaction that is open at the end.
pub const COMMITTED: &str = "\
1 0100         01000000000000               open => opened 0.0
1 0200         02000000000000               begin any => begun 0.0
1 040178000131 07                           put x 1 => done
1 06010000     0800010000000101000000000000 commit ser => committed 1.1 from 0.0
1 0200         02000100000001               begin any => begun 1.1
1 040178000132 07                           put x 2 => done";

/// The commit is there, also for a question. The session and its transaction are gone, and their number serves anew.
pub const COMMITTED_AGAIN: &str = "\
1 030178       1502                         get x => refused notopen
1 400001000000010178 400100010000000101000131 x at 1.1 => 1.1 1
1 0100         01000000000000               open => opened 0.0
1 06010000     1506                         commit ser => refused notxn
1 0200         02000100000001               begin any => begun 1.1
1 030178       04000100000001000131         get x => value 1.1 1
1 040178000133 07                           put x 3 => done
1 06010000     0800010000000201000100000001 commit ser => committed 1.2 from 1.1";

/// Behind two records: a third, a consent, and the own promise.
pub const PROMISED: &str = "\
1 14010002000000030100020000000201016101000133 11                     deliver 2.3 => applied
1 140200020000000100020000000300000003         11                     deliver consent 1 of 2 => applied
1 0d000200000003                               0c00020000000300000001 raise 2.3 => raised 2.3 1";

/// All of it is there, and is given to whoever pulls. The next promise has the next number.
pub const PROMISED_AGAIN: &str = "\
1 14010002000000030100020000000201016101000133 12                     deliver 2.3 => known
1 140200020000000100020000000300000003         12                     deliver consent 1 of 2 => known
1 14010002000000040100020000000101016201000139 1518000200000001       deliver 2.4 below 2.1 => refused closedparent 2.1
1 13020000000000000000 100000020001000000010002000000030000000000020000000100020000000300000003 pull 0 0 => batch
1 0d000200000003                               0c00020000000300000002 raise 2.3 => raised 2.3 2";

/// Two commits, of which the second stays.
pub const COLLECTED: &str = "\
1 0101         01000000000000               open follow => opened 0.0
1 0200         02000000000000               begin any => begun 0.0
1 040178000131 07                           put x 1 => done
1 06010000     0800010000000101000000000000 commit ser => committed 1.1 from 0.0
1 0200         02000100000001               begin any => begun 1.1
1 040178000132 07                           put x 2 => done
1 06010000     0800010000000201000100000001 commit ser => committed 1.2 from 1.1
1 0200         02000100000002               begin any => begun 1.2
1 0e           0c00010000000200000001       raise auto => raised 1.2 1
1 0f00ff       0d00000002                   tidy 255 => tidied 2";

/// The others stay collected.
pub const COLLECTED_AGAIN: &str = "\
1 10             0e000000000000000300000001000000010000010000000200010000000200000001 stat => stat known 3 kept 1 leaves 1 sessions 0 sites 1 2:1.2:1
1 11000100000001 1513000100000001               show 1.1 => refused collected 1.1
1 0100           01000100000002                 open => opened 1.2
1 0200           02000100000002                 begin any => begun 1.2
1 030178         04000100000002000132           get x => value 1.2 2";

/// Two commits, one after another.
pub const TWO_COMMITS: &str = "\
1 0100         01000000000000               open => opened 0.0
1 0200         02000000000000               begin any => begun 0.0
1 040178000131 07                           put x 1 => done
1 06010000     0800010000000101000000000000 commit ser => committed 1.1 from 0.0
1 0200         02000100000001               begin any => begun 1.1
1 040178000132 07                           put x 2 => done
1 06010000     0800010000000201000100000001 commit ser => committed 1.2 from 1.1";

/// Of two kept states at most: five states write a key each, and each is collected once the next one is below it.
pub const KEYS_IN_TURN: &str = "\
1 0101         01000000000000               open follow => opened 0.0
1 0200         02000000000000               begin any => begun 0.0
1 040161000131 07                           put a 1 => done
1 06010000     0800010000000101000000000000 commit ser => committed 1.1 from 0.0
0 0e           0c00010000000100000001       raise auto => raised 1.1 1
0 0f00ff       0d00000001                   tidy 255 => tidied 1
1 0200         02000100000001               begin any => begun 1.1
1 040162000132 07                           put b 2 => done
1 06010000     0800010000000201000100000001 commit ser => committed 1.2 from 1.1
0 0e           0c00010000000200000002       raise auto => raised 1.2 2
0 0f00ff       0d00000001                   tidy 255 => tidied 1
1 0200         02000100000002               begin any => begun 1.2
1 040163000133 07                           put c 3 => done
1 06010000     0800010000000301000100000002 commit ser => committed 1.3 from 1.2
0 0e           0c00010000000300000003       raise auto => raised 1.3 3
0 0f00ff       0d00000001                   tidy 255 => tidied 1
1 0200         02000100000003               begin any => begun 1.3
1 040164000134 07                           put d 4 => done
1 06010000     0800010000000401000100000003 commit ser => committed 1.4 from 1.3
0 0e           0c00010000000400000004       raise auto => raised 1.4 4
0 0f00ff       0d00000001                   tidy 255 => tidied 1
1 0200         02000100000004               begin any => begun 1.4
1 040165000135 07                           put e 5 => done
1 06010000     0800010000000501000100000004 commit ser => committed 1.5 from 1.4
0 0e           0c00010000000500000005       raise auto => raised 1.5 5
0 0f00ff       0d00000001                   tidy 255 => tidied 1
1 0200         02000100000005               begin any => begun 1.5
1 030161       04000100000001000131         get a => value 1.1 1";
