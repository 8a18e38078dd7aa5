//! Records of look-ups serve calls while they live.
use super::plays::{HELLO, LOOKUP, Lane, NODE_2, NODE_3, OPEN, OPENED, REPLACE, Scene, plays};
use super::{INIT, INIT_DONE};
use std::test::Fail;

// ---- records
/// Records live for ten seconds: after nine a look-up shows the object that was replaced, and asks nothing; after ten it
/// shows the new one.
const RECORDS_END: Scene<'static> = Scene {
    start: r#""config":{"stat_lifetime":10,"type_lifetime":10},"objects":[{"name":"f","hex":"68656c6c6f"}],"#,
    phases: &[
        Lane::Calls(&[(INIT, INIT_DONE), (LOOKUP, NODE_2)]),
        REPLACE,
        Lane::Clock("9"),
        Lane::Calls(&[(LOOKUP, NODE_2)]),
        Lane::Clock("1"),
        Lane::Calls(&[(LOOKUP, NODE_3)]),
    ],
    told: "object 66 2 1 0 5 776f726c64 -
log 1 1 done stat 662f
log 2 1 done stat 66
log 3 2 done insert 66 * 0 - 776f726c64
log 4 6 done stat 662f
log 5 6 done stat 66
take 1.1 0
done 1.1 0 ok
take 1.2 0
done 1.2 2 ok o1k o2k
tick 3 9
take 4.1 3
done 4.1 3 ok r1 r2
tick 3 1
take 6.1 3
done 6.1 5 ok o4k o5k
end
",
};

#[test]
fn records_serve_until_their_end(rt: HostRuntime) -> Result<(), Fail> {
    plays(&rt, rt.alloc(), RECORDS_END)
}
