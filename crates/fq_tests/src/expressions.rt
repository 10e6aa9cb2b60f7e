//! Filters and computed columns.
use crate::cases::hold;
use std::test::Fail;

#[test]
fn filters(rt: HostRuntime) -> Result<(), Fail> {
    hold(
        &rt,
        rt.alloc(),
        r#"
a filter keeps the rows where it is true
{"version":1,"sources":[{"files":1,"columns":[["id","int"],["v","int"]]}],"steps":[{"filter":["gt",{"col":"v"},10]}]}
< id,v\n1,5\n2,\n3,20\n
> id,v\n3,20\n

a filter over no rows
{"version":1,"sources":[{"files":1,"columns":[["id","int"],["v","int"]]}],"steps":[{"filter":["gt",{"col":"v"},10]}]}
< id,v\n
> id,v\n

a filter over a last line without its end
{"version":1,"sources":[{"files":1,"columns":[["id","int"],["v","int"]]}],"steps":[{"filter":["gt",{"col":"v"},10]}]}
< id,v\n1,11\n2,11
> id,v\n1,11\n2,11\n

a filter keeps rows that are alike
{"version":1,"sources":[{"files":1,"columns":[["v","int"]]}],"steps":[{"filter":["gt",{"col":"v"},10]}]}
< v\n9\n11\n11\n
> v\n11\n11\n

a filter that is always true
{"version":1,"sources":[{"files":1,"columns":[["i","int"],["v","int"]]}],"steps":[{"filter":true}]}
< i,v\n1,5\n2,\n3,20\n
> i,v\n1,5\n2,\n3,20\n
"#,
    )
}

#[test]
fn results_that_do_not_fit(rt: HostRuntime) -> Result<(), Fail> {
    hold(
        &rt,
        rt.alloc(),
        r#"
both sides of a conjunction are evaluated
{"version":1,"sources":[{"files":1,"columns":[["a","int"]]}],"steps":[{"filter":["and",false,["gt",["add",{"col":"a"},1],0]]}]}
< a\n9223372036854775807\n
4 step 0, item 0: overflow

a quotient that does not fit
{"version":1,"sources":[{"files":1,"columns":[["a","int"],["b","int"]]}],"steps":[{"with_columns":[["q",["floordiv",{"col":"a"},{"col":"b"}]],["r",["mod",{"col":"a"},{"col":"b"}]]]}]}
< a,b\n-9223372036854775808,-1\n
4 step 0, item 0: overflow

`sub` of literals that does not fit
{"version":1,"sources":[{"files":1,"columns":[["x","int"]]}],"steps":[{"select":[["a",["sub",-9223372036854775808,1]]]}]}
< x\n1\n
4 step 0, item 0: overflow

`mul` of literals that does not fit
{"version":1,"sources":[{"files":1,"columns":[["x","int"]]}],"steps":[{"select":[["a",["mul",4611686018427387904,2]]]}]}
< x\n1\n
4 step 0, item 0: overflow

`floordiv` of literals that does not fit
{"version":1,"sources":[{"files":1,"columns":[["x","int"]]}],"steps":[{"select":[["a",["floordiv",-9223372036854775808,-1]]]}]}
< x\n1\n
4 step 0, item 0: overflow
"#,
    )
}

#[test]
fn values(rt: HostRuntime) -> Result<(), Fail> {
    hold(
        &rt,
        rt.alloc(),
        r#"
columns that change their places: each is computed from the row as it was
{"version":1,"sources":[{"files":1,"columns":[["a","int"],["b","int"]]}],"steps":[{"with_columns":[["a",{"col":"b"}],["b",{"col":"a"}],["c",{"col":"a"}]]}]}
< a,b\n1,2\n
> a,b,c\n2,1,1\n

a selection names a column several times and swaps others
{"version":1,"sources":[{"files":1,"columns":[["a","text"],["b","text"],["n","int"]]}],"steps":[{"select":[["x",{"col":"a"}],["b",{"col":"n"}],["m",["add",{"col":"n"},1]],["y",{"col":"a"}],["n",{"col":"b"}],["z",{"col":"a"}]]}]}
< a,b,n\none,first,1\n,second,\na text of more than twenty-four bytes,third,3\n
> x,b,m,y,n,z\none,1,2,one,first,one\n,,,,second,\na text of more than twenty-four bytes,3,4,a text of more than twenty-four bytes,third,a text of more than twenty-four bytes\n

`is_null` and `fill_null`
{"version":1,"sources":[{"files":1,"columns":[["i","int"],["v","int"]]}],"steps":[{"with_columns":[["n",["is_null",{"col":"v"}]],["f",["fill_null",{"col":"v"},5]]]}]}
< i,v\n1,\n2,1\n
> i,v,n,f\n1,,true,5\n2,1,false,1\n

three-valued logic, and equality of nulls
{"version":1,"sources":[{"files":1,"columns":[["x","int"]]}],"steps":[{"select":[["a",["and",{"null":"bool"},false]],["b",["or",{"null":"bool"},true]],["c",["not",{"null":"bool"}]],["d",["and",{"null":"bool"},true]],["e",["eq",{"null":"int"},{"null":"int"}]],["f",["eq_missing",{"null":"int"},{"null":"int"}]],["g",["fill_null",{"null":"int"},7]]]}]}
< x\n1\n
> a,b,c,d,e,f,g\nfalse,true,,,,true,7\n

texts are compared by their bytes
{"version":1,"sources":[{"files":1,"columns":[["x","int"]]}],"steps":[{"select":[["a",["ne","z","é"]],["b",["le","z","é"]],["c",["gt","z","é"]],["d",["eq_missing","z","é"]]]}]}
< x\n1\n
> a,b,c,d\ntrue,true,false,false\n

division rounds down and has no result by zero
{"version":1,"sources":[{"files":1,"columns":[["a","int"],["b","int"]]}],"steps":[{"with_columns":[["q",["floordiv",{"col":"a"},{"col":"b"}]],["r",["mod",{"col":"a"},{"col":"b"}]]]}]}
< a,b\n-7,2\n7,0\n7,-2\n-9223372036854775808,1\n
> a,b,q,r\n-7,2,-4,1\n7,0,,\n7,-2,-4,-1\n-9223372036854775808,1,-9223372036854775808,0\n

the rest of the least number by minus one is 0
{"version":1,"sources":[{"files":1,"columns":[["a","int"],["b","int"]]}],"steps":[{"with_columns":[["r",["mod",{"col":"a"},{"col":"b"}]]]}]}
< a,b\n-9223372036854775808,-1\n
> a,b,r\n-9223372036854775808,-1,0\n

quotients of literals
{"version":1,"sources":[{"files":1,"columns":[["x","int"]]}],"steps":[{"select":[["a",["floordiv",-7,2]],["b",["mod",7,-2]],["c",["mod",-9223372036854775808,-1]]]}]}
< x\n1\n
> a,b,c\n-4,-1,0\n

a hundred negations
{"version":1,"sources":[{"files":1,"columns":[["v","int"]]}],"steps":[{"filter":["not",["not",["not",["not",["not",["not",["not",["not",["not",["not",["not",["not",["not",["not",["not",["not",["not",["not",["not",["not",["not",["not",["not",["not",["not",["not",["not",["not",["not",["not",["not",["not",["not",["not",["not",["not",["not",["not",["not",["not",["not",["not",["not",["not",["not",["not",["not",["not",["not",["not",["not",["not",["not",["not",["not",["not",["not",["not",["not",["not",["not",["not",["not",["not",["not",["not",["not",["not",["not",["not",["not",["not",["not",["not",["not",["not",["not",["not",["not",["not",["not",["not",["not",["not",["not",["not",["not",["not",["not",["not",["not",["not",["not",["not",["not",["not",["not",["not",["not",["not",["is_null",{"col":"v"}]]]]]]]]]]]]]]]]]]]]]]]]]]]]]]]]]]]]]]]]]]]]]]]]]]]]]]]]]]]]]]]]]]]]]]]]]]]]]]]]]]]]]]]]]]]]]]]]]]]]]}]}
< v\n1\n""\n
> v\n""\n

the six comparisons of whole numbers
{"version":1,"sources":[{"files":1,"columns":[["v","int"]]}],"steps":[{"select":[["eq",["eq",{"col":"v"},2]],["ne",["ne",{"col":"v"},2]],["lt",["lt",{"col":"v"},2]],["le",["le",{"col":"v"},2]],["gt",["gt",{"col":"v"},2]],["ge",["ge",{"col":"v"},2]]]}]}
< v\n1\n2\n3\n
> eq,ne,lt,le,gt,ge\nfalse,true,true,true,false,false\ntrue,false,false,true,false,true\nfalse,true,false,false,true,true\n
"#,
    )
}
