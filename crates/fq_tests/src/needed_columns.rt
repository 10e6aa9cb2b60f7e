//! Plans that need some columns of their main source alone: the others are judged, and left out.
use crate::cases::{gives, hold};
use std::alloc::Global;
use std::test::Fail;

#[test]
fn columns_that_are_needed(rt: HostRuntime) -> Result<(), Fail> {
    hold(
        &rt,
        rt.alloc(),
        r#"
a plan that reads some columns at each of its steps
{"version":1,"sources":[{"files":1,"columns":[["k","text"],["price","int"]]},{"files":1,"columns":[["k","text"],["note","text"],["v","int"],["w","int"],["x","int"]]}],"steps":[{"filter":["gt",{"col":"v"},1]},{"with_columns":[["w",["add",{"col":"w"},1]]]},{"join":{"source":0,"on":["k"],"how":"inner"}},{"group_by":{"keys":["k"],"aggs":[["n","len"],["s","sum","w"],["p","max","price"]]}}]}
< k,price\na,5\nb,6\nc,7\n
< k,note,v,w,x\na,first,1,10,7\nb,"a,b",2,20,\na,third,3,30,9\nb,,4,40,1\nc,last,5,50,2\n
> k,n,s,p\nb,2,62,6\na,1,31,5\nc,1,51,7\n

a column that a step replaces by what it makes of it
{"version":1,"sources":[{"files":1,"columns":[["a","int"],["b","int"],["c","int"]]}],"steps":[{"with_columns":[["a",["mul",{"col":"a"},10]],["b",{"col":"c"}]]},{"rolling_sum":{"column":"a","window":2,"min_samples":1,"name":"a"}},{"select":[["a",{"col":"a"}],["b",{"col":"b"}]]}]}
< a,b,c\n1,8,3\n2,9,4\n
> a,b\n10,3\n30,4\n

a bad field of a column that is not needed
{"version":1,"sources":[{"files":1,"columns":[["a","int"],["b","int"]]}],"steps":[{"select":[["a",{"col":"a"}]]}]}
< a,b\n1,2\n3,x\n
4 file 0, row 2, column 1: bad cell
"#,
    )
}

// A file of so many rows: their numbers, and a text in each.
fn noted(alloc: Global, count: usize) -> Result<String, Fail> {
    let mut text = String::from_str(alloc, "v,note\n")?;
    for number in 0..count {
        text.push_str(format!(in alloc; "{number},\"a note, which no step reads\"\n")?.as_str())?;
    }
    Ok(text)
}

#[test]
fn a_long_file_of_texts_that_are_not_needed(rt: HostRuntime) -> Result<(), Fail> {
    let text = noted(rt.alloc(), 3_000)?;
    gives(
        &rt,
        rt.alloc(),
        r#"{"version":1,"sources":[{"files":1,"columns":[["v","int"],["note","text"]]}],"steps":[{"filter":["ge",{"col":"v"},2998]},{"select":[["v",{"col":"v"}]]}]}"#,
        &[text.as_str()],
        "v\n2998\n2999\n",
    )
}
