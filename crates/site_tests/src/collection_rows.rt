//! Worked rows of collection: an actor, the bytes of its request, those of the reply, and both in words.

/// Both branches of a fork are collected, and then the fork, whose pairs leave the path.
pub const GROWN_TOGETHER: &str = "\
1 07             07                                                                         abort => done
1 0c000100000003 07                                                                         ceiling 1.3 => done
2 0c000100000003 07                                                                         ceiling 1.3 => done
0 0e             0c00010000000300000001                                                     raise auto => raised 1.3 1
0 0f0002         0d00000002                                                                 tidy 2 => tidied 2
0 11000000000000 0f00000000000000000000000200010000000100010000000200000000                 show 0.0 => shown 0 children 2 1.1 1.2 path 0
0 11000100000003 0f000000000000000300000000000000020000000000000000000000000000000000000001 show 1.3 => shown 3 children 0 path 2 0.0:0 0.0:1
0 0f00ff         0d00000001                                                                 tidy 255 => tidied 1
0 11000100000003 0f00000000000000030000000000000000                                         show 1.3 => shown 3 children 0 path 0
0 10             0e000000000000000400000001000000010002010000000300010000000300000001       stat => stat known 4 kept 1 leaves 1 sessions 2 sites 1 3:1.3:1
1 0200           02000100000003                                                             begin any => begun 1.3
1 030179         04000100000002000135                                                       get y => value 1.2 5";

/// A fork of three branches of which two were joined stays.
pub const FORK_OF_THREE: &str = "\
1 0100                         01000000000000                                                             open => opened 0.0
1 0200                         02000000000000                                                             begin any => begun 0.0
1 040161000131                 07                                                                         put a 1 => done
1 06010000                     0800010000000101000000000000                                               commit ser => committed 1.1 from 0.0
1 0203000000000000             02000000000000                                                             begin at 0.0 => begun 0.0
1 030161                       06                                                                         get a => absent
1 040162000131                 07                                                                         put b 1 => done
1 06010000                     0800010000000201000000000000                                               commit ser => committed 1.2 from 0.0
1 0203000000000000             02000000000000                                                             begin at 0.0 => begun 0.0
1 030161                       06                                                                         get a => absent
1 030162                       06                                                                         get b => absent
1 040163000131                 07                                                                         put c 1 => done
1 06010000                     0800010000000301000000000000                                               commit ser => committed 1.3 from 0.0
1 0802000100000001000100000002 0302000100000001000100000002                                               merge 1.1 1.2 => merging 1.1 1.2
1 06000000                     0800010000000402000100000001000100000002                                   commit - => committed 1.4 from 1.1 1.2
1 0c000100000004               07                                                                         ceiling 1.4 => done
0 0e                           0c00010000000400000001                                                     raise auto => raised 1.4 1
0 0f00ff                       0d00000002                                                                 tidy 255 => tidied 2
0 11000100000002               1513000100000002                                                           show 1.2 => refused collected 1.2
0 11000000000000               0f00000000000000000000000300010000000100010000000200010000000300000000     show 0.0 => shown 0 children 3 1.1 1.2 1.3 path 0
0 11000100000004               0f000000000000000400000000000000020000000000000000000000000000000000000001 show 1.4 => shown 4 children 0 path 2 0.0:0 0.0:1";

/// A full site has room again once closed states are collected.
pub const ROOM_AGAIN: &str = "\
1 0101         01000000000000               open follow => opened 0.0
1 0200         02000000000000               begin any => begun 0.0
1 040178000131 07                           put x 1 => done
1 06010000     0800010000000101000000000000 commit ser => committed 1.1 from 0.0
1 0200         02000100000001               begin any => begun 1.1
1 040178000132 07                           put x 2 => done
1 06010000     0800010000000201000100000001 commit ser => committed 1.2 from 1.1
1 0200         02000100000002               begin any => begun 1.2
1 040179000133 07                           put y 3 => done
1 06010000     151400000003                 commit ser => refused full 3
0 0e           0c00010000000200000001       raise auto => raised 1.2 1
0 0f00ff       0d00000002                   tidy 255 => tidied 2
1 06010000     0800010000000301000100000002 commit ser => committed 1.3 from 1.2
1 0200         02000100000003               begin any => begun 1.3
1 030178       04000100000002000132         get x => value 1.2 2";
