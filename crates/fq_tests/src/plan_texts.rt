//! Texts of plans: which are none.
use crate::cases::{fails, hold};
use std::test::Fail;

#[test]
fn texts_of_plans(rt: HostRuntime) -> Result<(), Fail> {
    hold(
        &rt,
        rt.alloc(),
        r#"
a plan without its last brace
{"version":1,"sources":[{"files":1,"columns":[["v","int"]]}],"steps":[]
3 plan: not JSON

two hundred brackets
[[[[[[[[[[[[[[[[[[[[[[[[[[[[[[[[[[[[[[[[[[[[[[[[[[[[[[[[[[[[[[[[[[[[[[[[[[[[[[[[[[[[[[[[[[[[[[[[[[[[[[[[[[[[[[[[[[[[[[[[[[[[[[[[[[[[[[[[[[[[[[[[[[[[[[[[[[[[[[[[[[[[[[[[[[[[[[[[[[[[[[[[[[[[[[[[[[[[[[[[]]]]]]]]]]]]]]]]]]]]]]]]]]]]]]]]]]]]]]]]]]]]]]]]]]]]]]]]]]]]]]]]]]]]]]]]]]]]]]]]]]]]]]]]]]]]]]]]]]]]]]]]]]]]]]]]]]]]]]]]]]]]]]]]]]]]]]]]]]]]]]]]]]]]]]]]]]]]]]]]]]]]]]]]]]]]]]]]]]]]]]]]]]]]]]]]]]]]]]]]
3 plan: not JSON

a plan of its version alone
{"version":1}
3 plan: wrong shape

a version that is no number
{"version":true,"sources":[],"steps":[]}
3 plan: wrong shape

version 3
{"version":3,"sources":[{"files":1,"columns":[["v","int"]]}],"steps":[]}
3 plan: wrong shape

null texts in version 1
{"version":1,"sources":[{"files":1,"columns":[["v","int"]],"null_values":[]}],"steps":[]}
3 plan: wrong shape

seventeen null texts
{"version":2,"sources":[{"files":1,"columns":[["v","int"]],"null_values":["0","1","2","3","4","5","6","7","8","9","a","b","c","d","e","f","g"]}],"steps":[]}
3 plan: wrong shape

a null text that is a number
{"version":2,"sources":[{"files":1,"columns":[["v","int"]],"null_values":[0]}],"steps":[]}
3 plan: wrong shape

a member of another name
{"version":2,"sources":[{"files":1,"columns":[["v","int"]],"nulls":["0"]}],"steps":[]}
3 plan: wrong shape

no source
{"version":1,"sources":[],"steps":[]}
3 plan: wrong shape

a step of another name
{"version":1,"sources":[{"files":1,"columns":[["v","int"]]}],"steps":[{"sort":"v"}]}
3 plan: wrong shape

a fraction
{"version":1,"sources":[{"files":1,"columns":[["v","int"]]}],"steps":[{"filter":1.5}]}
3 plan: wrong shape

a literal past 64 bits
{"version":1,"sources":[{"files":1,"columns":[["v","int"]]}],"steps":[{"filter":9223372036854775808}]}
3 plan: wrong shape

seventeen files
{"version":1,"sources":[{"files":8,"columns":[]},{"files":9,"columns":[]}],"steps":[]}
3 plan: wrong shape

version 2 without null texts
{"version":2,"sources":[{"files":1,"columns":[["v","int"]]}],"steps":[]}
< v\n77\n
> v\n77\n

version 2 with an empty list of null texts
{"version":2,"sources":[{"files":1,"columns":[["v","int"]],"null_values":[]}],"steps":[]}
< v\n77\n
> v\n77\n

sixteen null texts
{"version":2,"sources":[{"files":1,"columns":[["v","int"]],"null_values":["0","1","2","3","4","5","6","7","8","9","a","b","c","d","e","f"]}],"steps":[]}
< v\n77\n
> v\n77\n
"#,
    )
}

#[test]
fn no_plan_at_all(rt: HostRuntime) -> Result<(), Fail> {
    fails(&rt, rt.alloc(), "", &[], 3, "plan: not JSON")
}

#[test]
fn a_brace_alone(rt: HostRuntime) -> Result<(), Fail> {
    fails(&rt, rt.alloc(), "{", &[], 3, "plan: not JSON")
}

#[test]
fn an_array(rt: HostRuntime) -> Result<(), Fail> {
    fails(&rt, rt.alloc(), "[]", &[], 3, "plan: wrong shape")
}
