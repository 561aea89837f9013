//! Whole runs with their whole output.

use super::{CONSTRUCTORS, TWICE, TWICE_TOLD, calm, joined};
use std::process::ExitCode;
use std::test::Fail;

const DESTRUCTORS: &str = "0 - uninit vnet_if_return
0 - uninit udp
0 - uninit icmp
0 - uninit ip
0 - uninit arp
0 - uninit route
0 - uninit inaddr
0 - uninit loif
0 - uninit vnet_cloner
0 - uninit vnet_if
0 - uninit vnet_data
";

const EMPTY_TOLD: [&str; 3] = [
    "== host\n",
    CONSTRUCTORS,
    "== pool open 0 kept 0
== history 1
== end
",
];

const NO_PARENT_NO_ROOM: &str = "1 host jail -c name=a.b vnet persist
1 host jail -c persist vnet name=a
# with room for no jail below it

 8  host jail -c name=a.b vnet persist ";

const NO_PARENT_NO_ROOM_TOLD: [&str; 5] = [
    "== host\n",
    CONSTRUCTORS,
    "0 1 jail -c name=a.b vnet persist = ENOENT 2
0 1 jail -c name=a vnet persist = ok
0 8 jail -c name=a.b vnet persist = EPERM 1
== a
",
    CONSTRUCTORS,
    "== pool open 0 kept 0
== history 1
cmd 1 host jail -c name=a.b vnet persist
cmd 1 host jail -c name=a vnet persist
cmd 8 host jail -c name=a.b vnet persist
== end
",
];

const ROOM_COMES_BACK: &str = "1 host jail -c name=a children.max=1 vnet persist
1 a jail -c name=b vnet persist
1 a jail -c name=c vnet persist
1 a jail -r b
1 a jail -c name=c vnet persist";

const ROOM_COMES_BACK_TOLD: [&str; 10] = [
    "== host\n",
    CONSTRUCTORS,
    "0 1 jail -c name=a vnet persist children.max=1 = ok
== a
",
    CONSTRUCTORS,
    "0 1 jail -c name=b vnet persist = ok
0 1 jail -c name=c vnet persist = EPERM 1
0 1 jail -r b = ok
0 1 jail -c name=c vnet persist = ok
== a.b
",
    CONSTRUCTORS,
    DESTRUCTORS,
    "== a.c\n",
    CONSTRUCTORS,
    "== pool open 0 kept 0
== history 1
cmd 1 host jail -c name=a vnet persist children.max=1
cmd 1 a jail -c name=b vnet persist
cmd 1 a jail -c name=c vnet persist
cmd 1 a jail -r b
cmd 1 a jail -c name=c vnet persist
== end
",
];

const NAME_TAKEN: &str = "1 host jail -c name=a vnet persist
1 host ifconfig epair0 create
1 a ifconfig epair0 create
1 host ifconfig epair0a vnet a
";

const NAME_TAKEN_TOLD: [&str; 5] = [
    "== host\n",
    CONSTRUCTORS,
    "0 1 jail -c name=a vnet persist = ok
0 1 ifconfig epair0 create = epair0a
0 1 ifconfig epair0a vnet a = EEXIST 17
== a
",
    CONSTRUCTORS,
    "0 1 ifconfig epair0 create = epair0a
== pool open 0 kept 0
== history 1
cmd 1 host jail -c name=a vnet persist
cmd 1 host ifconfig epair0 create
cmd 1 a ifconfig epair0 create
cmd 1 host ifconfig epair0a vnet a
== end
",
];

const RECLAIMS: &str = "1 host jail -c name=a vnet persist
1 a ifconfig epair0 create
1 host ifconfig epair0a -vnet a
1 host ifconfig lo0 -vnet a
1 host ifconfig epair9a -vnet a
1 host ifconfig epair0a -vnet b
";

const RECLAIMS_TOLD: [&str; 5] = [
    "== host\n",
    CONSTRUCTORS,
    "0 1 jail -c name=a vnet persist = ok
0 1 ifconfig epair0a -vnet a = EPERM 1
0 1 ifconfig lo0 -vnet a = EPERM 1
0 1 ifconfig epair9a -vnet a = ENXIO 6
0 1 ifconfig epair0a -vnet b = ENXIO 6
== a
",
    CONSTRUCTORS,
    "0 1 ifconfig epair0 create = epair0a
== pool open 0 kept 0
== history 1
cmd 1 host jail -c name=a vnet persist
cmd 1 a ifconfig epair0 create
cmd 1 host ifconfig epair0a -vnet a
cmd 1 host ifconfig lo0 -vnet a
cmd 1 host ifconfig epair9a -vnet a
cmd 1 host ifconfig epair0a -vnet b
== end
",
];

#[test]
fn runs_are_written(rt: HostRuntime) -> Result<(), Fail> {
    let alloc = rt.alloc();
    let rows: [(&str, &str, &[&str]); 6] = [
        ("empty_script", "", &EMPTY_TOLD),
        ("create_twice", TWICE, &TWICE_TOLD),
        (
            "no_parent_no_room",
            NO_PARENT_NO_ROOM,
            &NO_PARENT_NO_ROOM_TOLD,
        ),
        ("room_comes_back", ROOM_COMES_BACK, &ROOM_COMES_BACK_TOLD),
        ("a_lent_name_is_taken", NAME_TAKEN, &NAME_TAKEN_TOLD),
        ("reclaims_are_refused", RECLAIMS, &RECLAIMS_TOLD),
    ];
    for (name, script, told) in rows {
        let (code, output, line) = calm(alloc, &["run"], script)?;
        assert_eq!(rt; code, ExitCode::SUCCESS, "{name}");
        assert_eq!(rt; output, joined(alloc, told)?, "{name}");
        assert!(rt; line.is_empty(), "{name}");
    }
    Ok(())
}
