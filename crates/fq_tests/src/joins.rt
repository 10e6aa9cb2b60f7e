//! Joins.
use crate::cases::hold;
use std::test::Fail;

#[test]
fn nulls_that_are_equal(rt: HostRuntime) -> Result<(), Fail> {
    hold(
        &rt,
        rt.alloc(),
        r#"
an inner join in which nulls are equal
{"version":2,"sources":[{"files":1,"columns":[["k","int"],["w","text"]]},{"files":1,"columns":[["k","int"],["v","int"]]}],"steps":[{"join":{"source":0,"on":["k"],"how":"inner","nulls_equal":true}}]}
< k,w\n1,a\n,b\n1,c\n
< k,v\n2,10\n1,20\n,30\n
> k,v,w\n1,20,a\n1,20,c\n,30,b\n

a left join in which nulls are equal
{"version":2,"sources":[{"files":1,"columns":[["k","int"],["w","text"]]},{"files":1,"columns":[["k","int"],["v","int"]]}],"steps":[{"join":{"source":0,"on":["k"],"how":"left","nulls_equal":true}}]}
< k,w\n1,a\n,b\n1,c\n
< k,v\n2,10\n1,20\n,30\n
> k,v,w\n2,10,\n1,20,a\n1,20,c\n,30,b\n

a semi join in which nulls are equal
{"version":2,"sources":[{"files":1,"columns":[["k","int"],["w","text"]]},{"files":1,"columns":[["k","int"],["v","int"]]}],"steps":[{"join":{"source":0,"on":["k"],"how":"semi","nulls_equal":true}}]}
< k,w\n1,a\n,b\n1,c\n
< k,v\n2,10\n1,20\n,30\n
> k,v\n1,20\n,30\n

an anti join in which nulls are equal
{"version":2,"sources":[{"files":1,"columns":[["k","int"],["w","text"]]},{"files":1,"columns":[["k","int"],["v","int"]]}],"steps":[{"join":{"source":0,"on":["k"],"how":"anti","nulls_equal":true}}]}
< k,w\n1,a\n,b\n1,c\n
< k,v\n2,10\n1,20\n,30\n
> k,v\n2,10\n
"#,
    )
}

#[test]
fn semi_and_anti_joins(rt: HostRuntime) -> Result<(), Fail> {
    hold(
        &rt,
        rt.alloc(),
        r#"
a semi join keeps the left rows that match
{"version":2,"sources":[{"files":1,"columns":[["k","int"],["w","text"]]},{"files":1,"columns":[["k","int"],["v","int"]]}],"steps":[{"join":{"source":0,"on":["k"],"how":"semi","nulls_equal":false}}]}
< k,w\n1,a\n,b\n1,c\n
< k,v\n2,10\n1,20\n,30\n
> k,v\n1,20\n

an anti join keeps the left rows that do not match
{"version":2,"sources":[{"files":1,"columns":[["k","int"],["w","text"]]},{"files":1,"columns":[["k","int"],["v","int"]]}],"steps":[{"join":{"source":0,"on":["k"],"how":"anti","nulls_equal":false}}]}
< k,w\n1,a\n,b\n1,c\n
< k,v\n2,10\n1,20\n,30\n
> k,v\n2,10\n,30\n

a semi join needs no suffix
{"version":2,"sources":[{"files":1,"columns":[["k","int"],["v","int"]]},{"files":1,"columns":[["k","int"],["v","int"],["v_right","int"]]}],"steps":[{"join":{"source":0,"on":["k"],"how":"semi"}}]}
< k,v\n1,7\n
< k,v,v_right\n1,5,6\n
> k,v,v_right\n1,5,6\n
"#,
    )
}

#[test]
fn joined_rows(rt: HostRuntime) -> Result<(), Fail> {
    hold(
        &rt,
        rt.alloc(),
        r#"
a left join keeps each left row, and null matches nothing
{"version":1,"sources":[{"files":1,"columns":[["k","int"],["w","text"]]},{"files":1,"columns":[["k","int"],["v","int"]]}],"steps":[{"join":{"source":0,"on":["k"],"how":"left"}}]}
< k,w\n1,a\n,b\n1,c\n
< k,v\n2,10\n1,20\n,30\n
> k,v,w\n2,10,\n1,20,a\n1,20,c\n,30,\n

an inner join
{"version":1,"sources":[{"files":1,"columns":[["k","int"],["w","text"]]},{"files":1,"columns":[["k","int"],["v","int"]]}],"steps":[{"join":{"source":0,"on":["k"],"how":"inner"}}]}
< k,w\n1,a\n,b\n1,c\n
< k,v\n2,10\n1,20\n,30\n
> k,v,w\n1,20,a\n1,20,c\n

a right column of a left name gets a suffix
{"version":1,"sources":[{"files":1,"columns":[["k","int"],["v","int"]]},{"files":1,"columns":[["k","int"],["v","int"]]}],"steps":[{"join":{"source":0,"on":["k"],"how":"inner"}}]}
< k,v\n1,7\n
< k,v\n1,5\n
> k,v,v_right\n1,5,7\n

a join on two keys: a null in either matches nothing
{"version":1,"sources":[{"files":1,"columns":[["k","int"],["w","text"],["l","text"]]},{"files":1,"columns":[["l","text"],["k","int"]]}],"steps":[{"join":{"source":0,"on":["k","l"],"how":"left"}}]}
< k,w,l\n1,a,x\n1,b,\n2,c,x\n1,d,x\n
< l,k\nx,1\n,1\ny,1\nx,\nx,1\n
> l,k,w\nx,1,a\nx,1,d\n,1,\ny,1,\nx,,\nx,1,a\nx,1,d\n

a left join without a main row
{"version":1,"sources":[{"files":1,"columns":[["k","int"],["w","text"]]},{"files":1,"columns":[["k","int"],["v","int"]]}],"steps":[{"join":{"source":0,"on":["k"],"how":"left"}}]}
< k,w\n1,a\n
< k,v\n
> k,v,w\n

a source that no step uses
{"version":1,"sources":[{"files":1,"columns":[["k","int"]]},{"files":1,"columns":[["k","int"]]}],"steps":[]}
< k\n2\n
< k\n1\n
> k\n1\n

steps before a join are done on the main files alone
{"version":1,"sources":[{"files":1,"columns":[["a","int"]]},{"files":2,"columns":[["a","int"]]}],"steps":[{"with_columns":[["p",["add",{"col":"a"},1]]]}]}
< a\n9223372036854775807\n
< a\n1\n2\n3\n
< a\n4\n
> a,p\n1,2\n2,3\n3,4\n4,5\n
"#,
    )
}

#[test]
fn faults_of_joined_files(rt: HostRuntime) -> Result<(), Fail> {
    hold(
        &rt,
        rt.alloc(),
        r#"
a fault of a source that no step uses
{"version":1,"sources":[{"files":1,"columns":[["k","int"]]},{"files":1,"columns":[["k","int"]]}],"steps":[]}
< k\nx\n
< k\n1\n
4 file 0, row 1, column 0: bad cell

a fault of a joined file without a main row
{"version":1,"sources":[{"files":1,"columns":[["k","int"],["w","text"]]},{"files":1,"columns":[["k","int"],["v","int"]]}],"steps":[{"join":{"source":0,"on":["k"],"how":"left"}}]}
< k,w\n1,a\nx,b\n
< k,v\n
4 file 0, row 2, column 0: bad cell
"#,
    )
}
