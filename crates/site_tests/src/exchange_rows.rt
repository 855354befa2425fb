//! Worked rows of what sites give each other, at site 1 of 2: an actor, the bytes of its request, those of the reply, and both
//! in words.

/// 2.1 below the root writes a, and so does 2.2 below 2.1, which comes early and then in time.
pub const TWO_RECORDS: &str = "\
0 14010002000000020100020000000101016101000132 1300000000 deliver 2.2 => early 0
0 14010002000000010100000000000001016101000131 11         deliver 2.1 => applied
0 14010002000000020100020000000101016101000132 11         deliver 2.2 => applied
";

/// Records come once, from other sites, and a pull has a count for each site.
pub const IN_ORDER: &str = "\
0 14010002000000020100020000000101016101000132 12               deliver 2.2 => known
0 14010003000000010100000000000001016101000131 15170003         deliver 3.1 => refused badsite 3
0 14010001000000010100000000000001016101000131 1519000100000001 deliver 1.1 => refused ownitem 1 1
0 130100000000                                 15170001         pull 0 => refused badsite 1
";

/// Consents wait for the states that they count, and close states.
pub const CONSENTS: &str = "\
0 140200020000000100020000000300000003         1300000002           deliver consent 1 of 2 => early 2
0 14010002000000030100020000000201016101000133 11                   deliver 2.3 => applied
0 140200020000000100020000000300000003         11                   deliver consent 1 of 2 => applied
0 140200020000000100020000000300000003         12                   deliver consent 1 of 2 => known
0 0d000200000003                               0c00020000000300000001 raise 2.3 => raised 2.3 1
0 14010002000000040100020000000101016201000139 1518000200000001     deliver 2.4 below 2.1 => refused closedparent 2.1
0 13020000000000000000 100000020001000000010002000000030000000000020000000100020000000300000003 pull 0 0 => batch
";

/// Records and consents that no honest site makes.
pub const LYING_PEERS: &str = "\
0 14010002000000030200020000000100020000000200 150b000200000001000200000002 deliver 2.3 below 2.1 2.2 => refused comparable 2.1 2.2
0 14010002000000030100010000000700             1300000002                   deliver 2.3 below 1.7 => early 2
0 14010002000000030100020000000101016101000133 11                           deliver 2.3 below 2.1 => applied
0 14010002000000040200020000000200020000000300 150e0161                     deliver 2.4 below 2.2 2.3 => refused openconflict a
0 140200020000000100020000000200000002         11                           deliver consent 1 of 2 => applied
0 140200020000000200020000000100000002         1511000200000002             deliver consent 2 of 2 => refused floorback 2.2
0 140200010000000100000000000000000000         1519000100000001             deliver consent 1 of 1 => refused ownitem 1 1
";

/// A pull gives both records, and the second one alone to whoever has the first.
pub const NEWS: &str = "\
0 13020000000000000000 1000020002000000010100000000000001016101000131000200000002010002000000010101610100013200 pull 0 0 => batch
0 13020000000000000001 100001000200000002010002000000010101610100013200 pull 0 1 => batch
";

/// An early record waits until it is settled. Settle passes over one that is unfit, and what comes early twice waits once.
pub const SETTLED: &str = "\
0 14010002000000030200020000000100020000000200 1300000000 deliver 2.3 below 2.1 2.2 => early 0
0 14010002000000020100020000000101016101000132 1300000000 deliver 2.2 => early 0
0 14010002000000020100020000000101016101000132 1300000000 deliver 2.2 => early 0
0 16                                           07         settle => done
0 14010002000000010100000000000001016101000131 11         deliver 2.1 => applied
0 16                                           11         settle => applied
0 16                                           07         settle => done
0 14010002000000020100020000000101016101000132 12         deliver 2.2 => known
0 14010002000000030100020000000201016101000133 11         deliver 2.3 below 2.2 => applied
0 16                                           07         settle => done
";

/// A record waits for another one.
pub const WAITS: &str = "\
0 14010002000000020100020000000101016101000132 1300000000 deliver 2.2 => early 0
";

/// The other one comes, and nothing waited for it.
pub const WAITED_NO_MORE: &str = "\
0 14010002000000010100000000000001016101000131 11 deliver 2.1 => applied
0 16                                           07 settle => done
";

/// Nothing waits.
pub const NONE_WAITS: &str = "\
0 16 07 settle => done
";

/// Of two kept states at most: the second record of a site has no room, when it comes and when it is settled.
pub const NO_ROOM: &str = "\
0 14010002000000020100020000000101016101000132 1300000000     deliver 2.2 => early 0
0 14010002000000010100000000000001016101000131 11             deliver 2.1 => applied
0 14010002000000020100020000000101016101000132 151400000002   deliver 2.2 => refused full 2
0 16                                           151400000002   settle => refused full 2
0 16                                           151400000002   settle => refused full 2
";

/// Of fork paths of one pair at most: a second child of 2.1 makes that of 2.3 too long.
pub const NO_PATH: &str = "\
0 14010002000000040100020000000100 1300000000                 deliver 2.4 below 2.1 => early 0
0 14010002000000010100000000000000 11                         deliver 2.1 => applied
0 14010002000000020100000000000000 11                         deliver 2.2 below 0.0 => applied
0 14010002000000030100020000000100 11                         deliver 2.3 below 2.1 => applied
0 14010002000000040100020000000100 151500020000000300000002   deliver 2.4 below 2.1 => refused pathfull 2.3 2
0 16                               151500020000000300000002   settle => refused pathfull 2.3 2
";
