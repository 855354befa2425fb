//! Worked rows of merges: an actor, the bytes of its request, those of the reply, and both in words.

/// Two sessions begin, and the second reads a key.
pub const WIDE_BEGUN: &str = "\
1 0100     01000000000000 open => opened 0.0
2 0100     01000000000000 open => opened 0.0
1 0200     02000000000000 begin any => begun 0.0
2 0200     02000000000000 begin any => begun 0.0
2 03020000 06             get #0000 => absent";

/// Both commit, and go on in their branches.
pub const WIDE_FIRST: &str = "\
1 06010000         0800010000000101000000000000 commit ser => committed 1.1 from 0.0
2 06010000         0800010000000201000000000000 commit ser => committed 1.2 from 0.0
1 0203000100000001 02000100000001               begin at 1.1 => begun 1.1
2 0203000100000002 02000100000002               begin at 1.2 => begun 1.2";

/// Both commit again.
pub const WIDE_SECOND: &str = "\
1 06010000 0800010000000301000100000001 commit ser => committed 1.3 from 1.1
2 06010000 0800010000000401000100000002 commit ser => committed 1.4 from 1.2";

/// A merge that has written nothing.
pub const WIDE_OPEN: &str = "\
1 06000000 150e020000 commit - => refused openconflict #0000";

/// The first states are joined, and the second state of one branch is taken in.
pub const STEP_ONE: &str = "\
1 06000000                     0800010000000502000100000001000100000002 commit - => committed 1.5 from 1.1 1.2
1 0802000100000003000100000005 0302000100000003000100000005             merge 1.3 1.5 => merging 1.3 1.5
1 0a00                         0b000000000000                           conflicts => keys 0
1 06000000                     0800010000000602000100000003000100000005 commit - => committed 1.6 from 1.3 1.5
1 0802000100000006000100000004 0302000100000004000100000006             merge 1.6 1.4 => merging 1.4 1.6";

/// The second state of the other branch is taken in.
pub const STEP_TWO: &str = "\
1 06000000 0800010000000702000100000004000100000006 commit - => committed 1.7 from 1.4 1.6
0 12       0a000000010001000100000007               leaves => states 1 1.7";

/// The cart of the README: two devices change it at once, and a merge joins both changes.
pub const CART: &str = "\
1 0100                                     01000000000000                             open => opened 0.0
2 0100                                     01000000000000                             open => opened 0.0
1 0200                                     02000000000000                             begin any => begun 0.0
1 0404636172740003746561                   07                                         put cart tea => done
1 06010000                                 0800010000000101000000000000               commit ser => committed 1.1 from 0.0
1 0200                                     02000100000001                             begin any => begun 1.1
2 0200                                     02000100000001                             begin any => begun 1.1
1 030463617274                             040001000000010003746561                   get cart => value 1.1 tea
2 030463617274                             040001000000010003746561                   get cart => value 1.1 tea
1 04046361727400087465612c6d696c6b         07                                         put cart tea,milk => done
2 04046361727400077465612c6a616d           07                                         put cart tea,jam => done
1 06010000                                 0800010000000201000100000001               commit ser => committed 1.2 from 1.1
2 06010000                                 0800010000000301000100000001               commit ser => committed 1.3 from 1.1
1 0800                                     0302000100000002000100000003               merge leaves => merging 1.2 1.3
1 09                                       0a000000010001000100000001                 forks => states 1 1.1
1 0a00                                     0b0000000100010463617274                   conflicts => keys 1 cart
1 06000000                                 150e0463617274                             commit - => refused openconflict cart
1 0b0463617274000100000002                 0400010000000200087465612c6d696c6b         getfor cart 1.2 => value 1.2 tea,milk
1 0b0463617274000100000003                 0400010000000300077465612c6a616d           getfor cart 1.3 => value 1.3 tea,jam
1 040463617274000c7465612c6d696c6b2c6a616d 07                                         put cart tea,milk,jam => done
1 06000000                                 0800010000000402000100000002000100000003   commit - => committed 1.4 from 1.2 1.3
2 0200                                     02000100000004                             begin any => begun 1.4
2 030463617274                             04000100000004000c7465612c6d696c6b2c6a616d get cart => value 1.4 tea,milk,jam";

/// Two branches: 1.1 and 1.2 both write `x`, and 1.2 writes `y`.
pub const BRANCHED: &str = "\
1 0100         01000000000000               open => opened 0.0
2 0100         01000000000000               open => opened 0.0
1 0200         02000000000000               begin any => begun 0.0
2 0200         02000000000000               begin any => begun 0.0
1 040178000131 07                           put x 1 => done
1 06010000     0800010000000101000000000000 commit ser => committed 1.1 from 0.0
2 030178       06                           get x => absent
2 040178000132 07                           put x 2 => done
2 040179000135 07                           put y 5 => done
2 06010000     0800010000000201000000000000 commit ser => committed 1.2 from 0.0";

/// A merge shows the conflict, doesn't commit without a value for it, and joins the branches with one.
pub const JOINED: &str = "\
1 09                 1506                                     forks => refused notxn
1 0800               0302000100000001000100000002             merge leaves => merging 1.1 1.2
1 0800               1505                                     merge leaves => refused txnopen
1 09                 0a000000010001000000000000               forks => states 1 0.0
1 0a00               0b0000000100010178                       conflicts => keys 1 x
1 0a0178             0b000000000000                           conflicts x => keys 0
1 06000000           150e0178                                 commit - => refused openconflict x
1 06010000           1507                                     commit ser => refused wrongmode
1 030178             150d0178                                 get x => refused conflictkey x
1 030179             04000100000002000135                     get y => value 1.2 5
1 0b0178000100000001 04000100000001000131                     getfor x 1.1 => value 1.1 1
1 0b0178000100000002 04000100000002000132                     getfor x 1.2 => value 1.2 2
1 0b017a000100000002 06                                       getfor z 1.2 => absent
1 0b0178000100000003 150c000100000003                         getfor x 1.3 => refused notread 1.3
1 040178000133       07                                       put x 3 => done
1 030178             04000000000000000133                     get x => value 0.0 3
1 0a00               0b0000000100010178                       conflicts => keys 1 x
1 0b0178000100000001 04000100000001000131                     getfor x 1.1 => value 1.1 1
1 06000000           0800010000000302000100000001000100000002 commit - => committed 1.3 from 1.1 1.2
1 0200               02000100000003                           begin any => begun 1.3
1 030178             04000100000003000133                     get x => value 1.3 3
1 030179             04000100000002000135                     get y => value 1.2 5
0 12                 0a000000010001000100000003               leaves => states 1 1.3";

/// After that: what is asked of merges alone, and which states a merge may read.
pub const APART: &str = "\
1 09                           1507                         forks => refused wrongmode
1 0a00                         1507                         conflicts => refused wrongmode
1 0b0178000100000001           1507                         getfor x 1.1 => refused wrongmode
1 07                           07                           abort => done
1 0802000100000001000100000003 150b000100000001000100000003 merge 1.1 1.3 => refused comparable 1.1 1.3
1 0802000100000003000100000003 150b000100000003000100000003 merge 1.3 1.3 => refused comparable 1.3 1.3
1 0802000100000001000500000001 1509000500000001             merge 1.1 5.1 => refused unknown 5.1
1 0802000100000002000100000001 0302000100000001000100000002 merge 1.2 1.1 => merging 1.1 1.2
1 050178                       07                           del x => done
1 030178                       05000000000000               get x => deleted 0.0
1 07                           07                           abort => done
3 0800                         1502                         merge leaves => refused notopen
3 0a00                         1502                         conflicts => refused notopen
3 0b0178000100000001           1502                         getfor x 1.1 => refused notopen
4 0101                         01000000000000               open follow => opened 0.0
4 0200                         02000100000003               begin any => begun 1.3
4 04017a000131                 07                           put z 1 => done
4 06010000                     0800010000000401000100000003 commit ser => committed 1.4 from 1.3
4 0802000100000003000900000009 1509000900000009             merge 1.3 9.9 => refused unknown 9.9
4 0802000100000004000100000003 150a000100000003000100000004 merge 1.4 1.3 => refused below 1.3 1.4";

/// Two merges of the same branches have both of them as fork points.
pub const MERGED_TWICE: &str = "\
1 0802000100000001000100000002 0302000100000001000100000002             merge 1.1 1.2 => merging 1.1 1.2
2 0802000100000002000100000001 0302000100000001000100000002             merge 1.2 1.1 => merging 1.1 1.2
1 040178000133                 07                                       put x 3 => done
2 040178000134                 07                                       put x 4 => done
1 06000000                     0800010000000302000100000001000100000002 commit - => committed 1.3 from 1.1 1.2
2 06000000                     0800010000000402000100000001000100000002 commit - => committed 1.4 from 1.1 1.2
1 0800                         0302000100000003000100000004             merge leaves => merging 1.3 1.4
1 09                           0a000000020002000100000001000100000002   forks => states 2 1.1 1.2
1 0a00                         0b0000000100010178                       conflicts => keys 1 x
0 11000100000003               0f0000000000000003000000000000000400000000000000000000000000000000000000010001000000010000000000010000000200\
    000000 show 1.3 => shown 3 children 0 path 4 0.0:0 0.0:1 1.1:0 1.2:0
0 11000100000004               0f0000000000000004000000000000000400000000000000000000000000000000000000010001000000010000000100010000000200\
    000001 show 1.4 => shown 4 children 0 path 4 0.0:0 0.0:1 1.1:1 1.2:1
0 12                           0a000000020002000100000003000100000004   leaves => states 2 1.3 1.4";

/// The news of a merge is all that it brings to a branch from the others: who read `x` doesn't land past it, who read `b` does.
pub const PAST_MERGES: &str = "\
1 0100             01000000000000                           open => opened 0.0
2 0100             01000000000000                           open => opened 0.0
1 0200             02000000000000                           begin any => begun 0.0
2 0200             02000000000000                           begin any => begun 0.0
2 030161           06                                       get a => absent
1 040161000131     07                                       put a 1 => done
2 040178000132     07                                       put x 2 => done
1 06010000         0800010000000101000000000000             commit ser => committed 1.1 from 0.0
2 06010000         0800010000000201000000000000             commit ser => committed 1.2 from 0.0
2 0203000100000001 02000100000001                           begin at 1.1 => begun 1.1
2 030178           06                                       get x => absent
2 04017a000131     07                                       put z 1 => done
1 0800             0302000100000001000100000002             merge leaves => merging 1.1 1.2
1 06000000         0800010000000302000100000001000100000002 commit - => committed 1.3 from 1.1 1.2
2 06010000         0800010000000401000100000001             commit ser => committed 1.4 from 1.1
2 0203000100000001 02000100000001                           begin at 1.1 => begun 1.1
2 030162           06                                       get b => absent
2 040163000131     07                                       put c 1 => done
2 06010000         0800010000000501000100000003             commit ser => committed 1.5 from 1.3";

/// After `BRANCHED`: a merge of one state is a merge, and commits below it, with writes and without.
pub const ONE_STATE: &str = "\
1 0800               0302000100000001000100000002             merge leaves => merging 1.1 1.2
1 040178000133       07                                       put x 3 => done
1 06000000           0800010000000302000100000001000100000002 commit - => committed 1.3 from 1.1 1.2
1 0800               0301000100000003                         merge leaves => merging 1.3
1 09                 0a000000010001000100000003               forks => states 1 1.3
1 0a00               0b000000000000                           conflicts => keys 0
1 0b0179000100000003 04000100000002000135                     getfor y 1.3 => value 1.2 5
1 0b0179000100000002 150c000100000002                         getfor y 1.2 => refused notread 1.2
1 030178             04000100000003000133                     get x => value 1.3 3
1 06010000           1507                                     commit ser => refused wrongmode
1 06000000           0800010000000401000100000003             commit - => committed 1.4 from 1.3
1 0801000100000003   0301000100000003                         merge 1.3 => merging 1.3
1 040178000134       07                                       put x 4 => done
1 0b0178000100000003 04000100000003000133                     getfor x 1.3 => value 1.3 3
1 06000000           0800010000000501000100000003             commit - => committed 1.5 from 1.3
0 12                 0a000000020002000100000004000100000005   leaves => states 2 1.4 1.5";

/// Nine branches are too many for one merge, and eight aren't.
pub const NINE_LEAVES: &str = "\
1 0100         01000000000000                         open => opened 0.0
1 0200         02000000000000                         begin any => begun 0.0
2 0100         01000000000000                         open => opened 0.0
2 0200         02000000000000                         begin any => begun 0.0
3 0100         01000000000000                         open => opened 0.0
3 0200         02000000000000                         begin any => begun 0.0
4 0100         01000000000000                         open => opened 0.0
4 0200         02000000000000                         begin any => begun 0.0
5 0100         01000000000000                         open => opened 0.0
5 0200         02000000000000                         begin any => begun 0.0
6 0100         01000000000000                         open => opened 0.0
6 0200         02000000000000                         begin any => begun 0.0
7 0100         01000000000000                         open => opened 0.0
7 0200         02000000000000                         begin any => begun 0.0
8 0100         01000000000000                         open => opened 0.0
8 0200         02000000000000                         begin any => begun 0.0
9 0100         01000000000000                         open => opened 0.0
9 0200         02000000000000                         begin any => begun 0.0
1 030178       06                                     get x => absent
1 040178000131 07                                     put x 1 => done
1 06010000     0800010000000101000000000000           commit ser => committed 1.1 from 0.0
2 030178       06                                     get x => absent
2 040178000131 07                                     put x 1 => done
2 06010000     0800010000000201000000000000           commit ser => committed 1.2 from 0.0
3 030178       06                                     get x => absent
3 040178000131 07                                     put x 1 => done
3 06010000     0800010000000301000000000000           commit ser => committed 1.3 from 0.0
4 030178       06                                     get x => absent
4 040178000131 07                                     put x 1 => done
4 06010000     0800010000000401000000000000           commit ser => committed 1.4 from 0.0
5 030178       06                                     get x => absent
5 040178000131 07                                     put x 1 => done
5 06010000     0800010000000501000000000000           commit ser => committed 1.5 from 0.0
6 030178       06                                     get x => absent
6 040178000131 07                                     put x 1 => done
6 06010000     0800010000000601000000000000           commit ser => committed 1.6 from 0.0
7 030178       06                                     get x => absent
7 040178000131 07                                     put x 1 => done
7 06010000     0800010000000701000000000000           commit ser => committed 1.7 from 0.0
8 030178       06                                     get x => absent
8 040178000131 07                                     put x 1 => done
8 06010000     0800010000000801000000000000           commit ser => committed 1.8 from 0.0
9 030178       06                                     get x => absent
9 040178000131 07                                     put x 1 => done
9 06010000     0800010000000901000000000000           commit ser => committed 1.9 from 0.0
1 0800         15080300000009                         merge leaves => refused toomany states 9
1 0809000100000001000100000002000100000003000100000004000100000005000100000006000100000007000100000008000100000009 1508030000\
    0009                         merge 1.1 1.2 1.3 1.4 1.5 1.6 1.7 1.8 1.9 => refused toomany states 9
1 0808000100000008000100000007000100000006000100000005000100000004000100000003000100000002000100000001 030800010000000100010000000200010000\
    0003000100000004000100000005000100000006000100000007000100000008 merge 1.8 1.7 1.6 1.5 1.4 1.3 1.2 1.1 => merging 1.1 1.2 1.3 1.4 1.5 1.6 1.7 1.8
1 0a00         0b0000000100010178                     conflicts => keys 1 x
1 040178000132 07                                     put x 2 => done
1 06000000     0800010000000a0800010000000100010000000200010000000300010000000400010000000500010000000600010000000700010000\
    0008 commit - => committed 1.10 from 1.1 1.2 1.3 1.4 1.5 1.6 1.7 1.8
0 12           0a00000002000200010000000900010000000a leaves => states 2 1.9 1.10";
