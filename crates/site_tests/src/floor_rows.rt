//! Worked rows of ceilings and floors: an actor, the bytes of its request, those of the reply, and both in words.

/// Under a ceiling no transaction begins above it, and it goes down alone. A ceiling holds the floor.
pub const CEILINGS: &str = "\
1 0100                         01000000000000               open => opened 0.0
2 0100                         01000000000000               open => opened 0.0
2 0200                         02000000000000               begin any => begun 0.0
2 030178                       06                           get x => absent
2 040178000139                 07                           put x 9 => done
1 0200                         02000000000000               begin any => begun 0.0
1 040178000131                 07                           put x 1 => done
1 06010000                     0800010000000101000000000000 commit ser => committed 1.1 from 0.0
1 0200                         02000100000001               begin any => begun 1.1
1 040178000132                 07                           put x 2 => done
1 06010000                     0800010000000201000100000001 commit ser => committed 1.2 from 1.1
1 0200                         02000100000002               begin any => begun 1.2
1 040178000133                 07                           put x 3 => done
1 06010000                     0800010000000301000100000002 commit ser => committed 1.3 from 1.2
1 0200                         02000100000003               begin any => begun 1.3
1 040178000134                 07                           put x 4 => done
1 06010000                     0800010000000401000100000003 commit ser => committed 1.4 from 1.3
1 0200                         02000100000004               begin any => begun 1.4
1 040178000135                 07                           put x 5 => done
1 06010000                     0800010000000501000100000004 commit ser => committed 1.5 from 1.4
2 06010000                     0800010000000601000000000000 commit ser => committed 1.6 from 0.0
1 0c000100000005               07                           ceiling 1.5 => done
1 0203000100000003             150a000100000003000100000005 begin at 1.3 => refused below 1.3 1.5
1 0802000100000003000100000006 150a000100000003000100000005 merge 1.3 1.6 => refused below 1.3 1.5
1 0c000100000002               1510000100000005             ceiling 1.2 => refused ceilingback 1.5
1 0c000100000006               1510000100000005             ceiling 1.6 => refused ceilingback 1.5
1 0c000100000007               1509000100000007             ceiling 1.7 => refused unknown 1.7
3 0c000100000005               1502                         ceiling 1.5 => refused notopen
1 0203000100000006             02000100000006               begin at 1.6 => begun 1.6
1 0c000100000005               1505                         ceiling 1.5 => refused txnopen
0 0d000100000005               15120002000000000000         raise 1.5 => refused held 2 0.0";

/// Two sessions commit in one chain, and the floor is raised to its end.
pub const RAISED_CHAIN: &str = "\
1 0100           01000000000000               open => opened 0.0
2 0100           01000000000000               open => opened 0.0
1 0200           02000000000000               begin any => begun 0.0
1 040178000131   07                           put x 1 => done
1 06010000       0800010000000101000000000000 commit ser => committed 1.1 from 0.0
1 0200           02000100000001               begin any => begun 1.1
1 040179000132   07                           put y 2 => done
1 06010000       0800010000000201000100000001 commit ser => committed 1.2 from 1.1
2 0200           02000100000002               begin any => begun 1.2
2 04017a000133   07                           put z 3 => done
2 06010000       0800010000000301000100000002 commit ser => committed 1.3 from 1.2
1 0200           02000100000003               begin any => begun 1.3
1 040178000134   07                           put x 4 => done
1 06010000       0800010000000401000100000003 commit ser => committed 1.4 from 1.3
1 0200           02000100000004               begin any => begun 1.4
1 040177000135   07                           put w 5 => done
1 06010000       0800010000000501000100000004 commit ser => committed 1.5 from 1.4
1 0c000100000005 07                           ceiling 1.5 => done
0 0d000100000005 15120002000000000000         raise 1.5 => refused held 2 0.0
2 0c000100000005 07                           ceiling 1.5 => done
0 0e             0c00010000000500000001       raise auto => raised 1.5 1
0 0d000100000002 1511000100000005             raise 1.2 => refused floorback 1.5
0 0d000100000009 1509000100000009             raise 1.9 => refused unknown 1.9
0 0d000100000005 0c00010000000500000002       raise 1.5 => raised 1.5 2
2 0202           150a000100000003000100000005 begin parent => refused below 1.3 1.5
2 0201           02000100000005               begin ancestor => begun 1.5";

/// After the raised chain: what is above the floor is collected, the one that arrived last first, and all reads stay.
pub const COLLECTED_CHAIN: &str = "\
0 0f0002         0d00000002                                             tidy 2 => tidied 2
0 11000100000004 1513000100000004                                       show 1.4 => refused collected 1.4
0 11000100000002 0f00000000000000020000000100010000000300000000         show 1.2 => shown 2 children 1 1.3 path 0
0 0f00ff         0d00000003                                             tidy 255 => tidied 3
0 0f0001         0d00000000                                             tidy 1 => tidied 0
0 10             0e000000000000000600000001000000010002010000000500010000000500000002 stat => stat known 6 kept 1 leaves 1 sessions 2 sites 1 5:1.5:2
0 11000100000003 1513000100000003                                       show 1.3 => refused collected 1.3
2 030178         04000100000004000134                                   get x => value 1.4 4
1 0200           02000100000005                                         begin any => begun 1.5
1 030179         04000100000002000132                                   get y => value 1.2 2";

/// The ceiling of a session that follows goes with its commits, and the automatic floor with it. New sessions open under it.
pub const FOLLOWED: &str = "\
1 0101         01000000000000               open follow => opened 0.0
1 0200         02000000000000               begin any => begun 0.0
1 040178000131 07                           put x 1 => done
1 06010000     0800010000000101000000000000 commit ser => committed 1.1 from 0.0
0 0e           0c00010000000100000001       raise auto => raised 1.1 1
0 0e           0c00010000000100000002       raise auto => raised 1.1 2
2 0100         01000100000001               open => opened 1.1
2 0202         150a000000000000000100000001 begin parent => refused below 0.0 1.1
2 0201         02000100000001               begin ancestor => begun 1.1";

/// A ceiling that follows stays where the commit is in another branch, and a session that is closed holds nothing.
pub const BESIDE: &str = "\
1 0101             01000000000000               open follow => opened 0.0
2 0100             01000000000000               open => opened 0.0
1 0200             02000000000000               begin any => begun 0.0
2 0200             02000000000000               begin any => begun 0.0
2 030178           06                           get x => absent
1 040178000131     07                           put x 1 => done
2 040178000132     07                           put x 2 => done
1 06010000         0800010000000101000000000000 commit ser => committed 1.1 from 0.0
2 06010000         0800010000000201000000000000 commit ser => committed 1.2 from 0.0
1 0203000100000002 02000100000002               begin at 1.2 => begun 1.2
1 040179000131     07                           put y 1 => done
1 06010000         0800010000000301000100000002 commit ser => committed 1.3 from 1.2
1 0c000100000003   1510000100000001             ceiling 1.3 => refused ceilingback 1.1
0 0e               0c00000000000000000001       raise auto => raised 0.0 1
2 15               14                           close => closed
0 0e               0c00010000000100000002       raise auto => raised 1.1 2
1 15               14                           close => closed
0 0d000100000002   1511000100000001             raise 1.2 => refused floorback 1.1
0 0e               0c00010000000100000003       raise auto => raised 1.1 3";

/// The least session holds the floor, whichever opened first.
pub const FIRST_HOLDS: &str = "\
1 0200           02000000000000               begin any => begun 0.0
1 040178000131   07                           put x 1 => done
1 06010000       0800010000000101000000000000 commit ser => committed 1.1 from 0.0
0 0d000100000001 15120001000000000000         raise 1.1 => refused held 1 0.0";

/// The last session holds the floor, until its ceiling goes down.
pub const LAST_HOLDS: &str = "\
0 0d000100000001 15120100000000000000   raise 1.1 => refused held 256 0.0
0 0e             0c00000000000000000001 raise auto => raised 0.0 1
256 0c000100000001 07                   ceiling 1.1 => done
0 0d000100000001 0c00010000000100000002 raise 1.1 => raised 1.1 2";
