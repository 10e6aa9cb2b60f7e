//! Groups and their aggregates.
use crate::cases::hold;
use std::test::Fail;

#[test]
fn sums_that_do_not_fit(rt: HostRuntime) -> Result<(), Fail> {
    hold(
        &rt,
        rt.alloc(),
        r#"
a sum that does not fit
{"version":1,"sources":[{"files":2,"columns":[["g","int"],["v","int"]]}],"steps":[{"group_by":{"keys":["g"],"aggs":[["s","sum","v"]]}}]}
< g,v\n1,9223372036854775807\n1,1\n
< g,v\n
4 step 0, item 0: sum out of range

a sum that does not fit beside a count
{"version":1,"sources":[{"files":2,"columns":[["g","int"],["v","int"]]}],"steps":[{"group_by":{"keys":["g"],"aggs":[["n","len"],["s","sum","v"]]}}]}
< g,v\n1,9223372036854775807\n1,1\n
< g,v\n
4 step 0, item 1: sum out of range

a sum of one file that does not fit
{"version":1,"sources":[{"files":1,"columns":[["a","int"],["b","int"]]}],"steps":[{"group_by":{"keys":["a"],"aggs":[["n","len"],["s","sum","b"]]}}]}
< a,b\n1,9223372036854775807\n1,1\n
4 step 0, item 1: sum out of range
"#,
    )
}

#[test]
fn groups(rt: HostRuntime) -> Result<(), Fail> {
    hold(
        &rt,
        rt.alloc(),
        r#"
a grouping of no rows is its header
{"version":1,"sources":[{"files":1,"columns":[["id","int"],["v","int"]]}],"steps":[{"group_by":{"keys":["id"],"aggs":[["n","len"]]}}]}
< id,v\n
> id,n\n

groups stand in the order of their first rows, and null is a key
{"version":1,"sources":[{"files":1,"columns":[["k","text"],["v","int"]]}],"steps":[{"group_by":{"keys":["k"],"aggs":[["n","len"],["s","sum","v"]]}}]}
< k,v\nb,1\n,2\na,3\n,10\nb,5\n
> k,n,s\nb,2,6\n,2,12\na,1,3\n

a filter of groups
{"version":1,"sources":[{"files":1,"columns":[["k","text"],["v","int"]]}],"steps":[{"group_by":{"keys":["k"],"aggs":[["n","len"],["s","sum","v"]]}},{"filter":["gt",{"col":"s"},6]}]}
< k,v\nb,1\n,2\na,3\n,10\nb,5\n
> k,n,s\n,2,12\n

`n_unique` counts null once, and `max` passes over it
{"version":1,"sources":[{"files":1,"columns":[["k","text"],["v","int"]]}],"steps":[{"group_by":{"keys":["k"],"aggs":[["u","n_unique","v"],["hi","max","v"]]}}]}
< k,v\na,1\nb,\na,1\nb,4\n
> k,u,hi\na,1,1\nb,2,4\n

each aggregate of nulls alone
{"version":1,"sources":[{"files":1,"columns":[["g","int"],["v","int"]]}],"steps":[{"group_by":{"keys":["g"],"aggs":[["s","sum","v"],["lo","min","v"],["hi","max","v"],["c","count","v"],["n","len"],["f","first","v"],["l","last","v"],["u","n_unique","v"]]}}]}
< g,v\n1,\n1,\n
> g,s,lo,hi,c,n,f,l,u\n1,0,,,0,2,,,1\n

a sum fits in the end, though its first rows alone do not
{"version":1,"sources":[{"files":2,"columns":[["g","int"],["v","int"]]}],"steps":[{"group_by":{"keys":["g"],"aggs":[["s","sum","v"]]}}]}
< g,v\n1,9223372036854775807\n1,1\n
< g,v\n1,-1\n
> g,s\n1,9223372036854775807\n

a sum that fits in the other order
{"version":1,"sources":[{"files":2,"columns":[["g","int"],["v","int"]]}],"steps":[{"group_by":{"keys":["g"],"aggs":[["s","sum","v"]]}}]}
< g,v\n1,-1\n
< g,v\n1,9223372036854775807\n1,1\n
> g,s\n1,9223372036854775807\n
"#,
    )
}
