//! Worked lines: a line that is asked, and the line that answers it.

/// The rules of the first tables.
pub(crate) const LETTERS: &str = "n=count,s=set,x=last";

/// Two branches that wrote one number, and one of them a set.
pub(crate) const FORK: &str = "\
0 auto => auto none
1 open => opened 0.0
2 open => opened 0.0
1 begin any => begun 0.0
1 put n 10 => done
1 commit ser => committed 1.1 from 0.0
1 begin any => begun 1.1
2 begin any => begun 1.1
1 get n => value 1.1 10
2 get n => value 1.1 10
1 put n 13 => done
2 put n 8 => done
2 put s a,c => done
1 commit ser => committed 1.2 from 1.1
2 commit ser => committed 1.3 from 1.1
";

/// They are merged by rules: both changes of the number are kept. A set that one branch alone wrote is no conflict.
pub(crate) const MERGED: &str = "\
3 auto => refused notopen
1 auto => auto 1.4
1 begin any => begun 1.4
1 get n => value 1.4 11
1 get s => value 1.3 a,c
2 auto => auto none
";

/// They are merged twice by hand, and the two merges part at two states: nothing tells with what number both began.
pub(crate) const MERGED_TWICE: &str = "\
1 merge 1.2 1.3 => merging 1.2 1.3
2 merge 1.2 1.3 => merging 1.2 1.3
1 put n 1 => done
2 put n 2 => done
1 commit - => committed 1.4 from 1.2 1.3
2 commit - => committed 1.5 from 1.2 1.3
1 auto => auto refused n
1 begin any => begun 1.5
1 auto => refused txnopen
";

/// The rules of the next two tables, and of those above again: nothing tells what was removed since both began, where that isn't known.
pub(crate) const SETS: &str = "s=set,=set3";

/// Two branches changed one set, under each of the two rules for sets; made another; and deleted a third, or added to it.
pub(crate) const CHANGED_SETS: &str = "\
1 open => opened 0.0
2 open => opened 0.0
1 begin any => begun 0.0
1 put s a,b,c,d => done
1 put t a,b,c,d => done
1 put v p,q => done
1 put w b,a => done
1 commit si => committed 1.1 from 0.0
1 begin any => begun 1.1
2 begin any => begun 1.1
1 put s b,c,d,e => done
1 put t b,c,d,e => done
1 put u x => done
1 del v => done
2 put s a,c,f => done
2 put t a,c,f => done
2 put u y => done
2 put v p,q,r => done
1 commit si => committed 1.2 from 1.1
2 commit si => committed 1.3 from 1.1
1 auto => auto 1.4
1 begin any => begun 1.4
1 get s => value 1.4 a,b,c,d,e,f
1 get t => value 1.4 c,e,f
1 get u => value 1.4 x,y
1 get v => value 1.4 r
";

/// What both began with is no set.
pub(crate) const NO_SET_BEFORE: &str = "\
2 begin any => begun 1.4
1 put w a => done
2 put w b => done
1 commit si => committed 1.5 from 1.4
2 commit si => committed 1.6 from 1.4
1 auto => auto refused w
";

/// Lines that are no auto lines.
pub(crate) const NO_AUTO_LINES: &str = "\
auto => refused malformed
1 auto x => refused malformed
1 auto  => refused malformed
01 auto => refused malformed
1  auto => refused malformed
65536 auto => refused malformed
1 Auto => refused malformed
0 raise auto => raised 0.0 1
65535 auto => auto none
";

/// The rules of a shop.
pub(crate) const SHOP: &str = "cart/=set,visits/=count,profile/=last,price/=refuse";

/// A cart, a counter and a profile are merged by rules, and a price by hand.
pub(crate) const SHOPPING: &str = "\
1 open => opened 0.0
2 open => opened 0.0
1 begin any => begun 0.0
1 put visits/home 10 => done
1 commit ser => committed 1.1 from 0.0
1 begin any => begun 1.1
2 begin any => begun 1.1
1 get visits/home => value 1.1 10
2 get visits/home => value 1.1 10
1 put visits/home 13 => done
1 put cart/1 bread,milk => done
1 put profile/7 blue => done
2 put visits/home 8 => done
2 put cart/1 eggs,milk => done
2 put profile/7 green => done
1 commit ser => committed 1.2 from 1.1
2 commit ser => committed 1.3 from 1.1
1 auto => auto 1.4
1 begin any => begun 1.4
1 get visits/home => value 1.4 11
1 get cart/1 => value 1.4 bread,eggs,milk
1 get profile/7 => value 1.4 green
2 begin any => begun 1.4
1 put price/1 20 => done
2 get price/1 => absent
2 put price/1 25 => done
1 commit ser => committed 1.5 from 1.4
2 commit ser => committed 1.6 from 1.4
1 auto => auto refused price/1
1 merge leaves => merging 1.5 1.6
1 getfor price/1 1.5 => value 1.5 20
1 getfor price/1 1.6 => value 1.6 25
1 put price/1 22 => done
1 commit - => committed 1.7 from 1.5 1.6
1 auto => auto none
";

/// Two sessions begin at the root.
pub(crate) const BOTH_BEGIN: &str = "\
1 open => opened 0.0
2 open => opened 0.0
1 begin any => begun 0.0
2 begin any => begun 0.0
";

/// Each commits what it wrote, in a branch of its own.
pub(crate) const BOTH_COMMIT: &str = "\
1 commit si => committed 1.1 from 0.0
2 commit si => committed 1.2 from 0.0
";

/// 64 conflict keys are merged.
pub(crate) const MOST_ARE_MERGED: &str = "\
1 auto => auto 1.3
1 begin any => begun 1.3
1 get 0 => value 1.3 2
1 get o => value 1.3 2
";

/// Each goes on in its branch.
pub(crate) const BOTH_GO_ON: &str = "\
1 begin parent => begun 1.1
2 begin parent => begun 1.2
";

/// One conflict key more is too much.
pub(crate) const MORE_ARE_WIDE: &str = "\
1 commit si => committed 1.3 from 1.1
2 commit si => committed 1.4 from 1.2
1 auto => auto wide 65
0 leaves => states 2 1.3 1.4
";
