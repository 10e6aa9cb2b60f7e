//! Rolling sums.
use crate::cases::hold;
use std::test::Fail;

#[test]
fn rolling_sums(rt: HostRuntime) -> Result<(), Fail> {
    hold(
        &rt,
        rt.alloc(),
        r#"
a rolling sum is given from a full window on
{"version":1,"sources":[{"files":1,"columns":[["i","int"],["v","int"]]}],"steps":[{"rolling_sum":{"column":"v","name":"r","window":2}}]}
< i,v\n1,3\n2,4\n
> i,v,r\n1,3,\n2,4,7\n

a rolling sum in the place of its column
{"version":1,"sources":[{"files":1,"columns":[["i","int"],["v","int"]]}],"steps":[{"rolling_sum":{"column":"v","name":"v","window":1}}]}
< i,v\n1,3\n
> i,v\n1,3\n

a rolling sum that is not given is not judged
{"version":1,"sources":[{"files":1,"columns":[["i","int"],["v","int"]]}],"steps":[{"rolling_sum":{"column":"v","name":"r","window":3,"min_samples":3}}]}
< i,v\n1,9223372036854775807\n2,\n3,1\n
> i,v,r\n1,9223372036854775807,\n2,,\n3,1,\n

a rolling sum that does not fit
{"version":1,"sources":[{"files":1,"columns":[["i","int"],["v","int"]]}],"steps":[{"rolling_sum":{"column":"v","name":"r","window":2}}]}
< i,v\n1,9223372036854775807\n2,1\n
4 step 0: rolling sum out of range

a rolling sum goes on over files
{"version":1,"sources":[{"files":2,"columns":[["i","int"],["v","int"]]}],"steps":[{"rolling_sum":{"column":"v","name":"r","window":3,"min_samples":2}}]}
< i,v\n1,1\n2,\n
< i,v\n3,4\n4,\n5,\n6,7\n
> i,v,r\n1,1,\n2,,\n3,4,5\n4,,\n5,,\n6,7,\n

a rolling sum, its rows filtered and grouped
{"version":1,"sources":[{"files":2,"columns":[["i","int"],["v","int"]]}],"steps":[{"rolling_sum":{"column":"v","name":"r","window":3,"min_samples":2}},{"filter":["is_not_null",{"col":"r"}]},{"group_by":{"keys":["r"],"aggs":[["n","len"]]}}]}
< i,v\n1,1\n2,\n
< i,v\n3,4\n4,\n5,\n6,7\n
> r,n\n5,1\n
"#,
    )
}
