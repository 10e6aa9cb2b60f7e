//! Which fault is answered, of files and of steps.
use crate::cases::hold;
use std::test::Fail;

#[test]
fn the_fault_of_a_run(rt: HostRuntime) -> Result<(), Fail> {
    hold(
        &rt,
        rt.alloc(),
        r#"
a fault of a joined file comes before those of steps
{"version":1,"sources":[{"files":1,"columns":[["a","int"]]},{"files":2,"columns":[["a","int"]]}],"steps":[{"with_columns":[["p",["add",{"col":"a"},1]]]}]}
< a\nx\n
< a\n1\n9223372036854775807\n
< a\ny\n
4 file 0, row 1, column 0: bad cell

a fault of a step in the first main file comes before those of the second
{"version":1,"sources":[{"files":1,"columns":[["a","int"]]},{"files":2,"columns":[["a","int"]]}],"steps":[{"with_columns":[["p",["add",{"col":"a"},1]]]}]}
< a\n9\n
< a\n1\n9223372036854775807\n
< a\ny\n
4 step 0, item 0: overflow

a bad cell at the end of the last file
{"version":1,"sources":[{"files":1,"columns":[["a","int"]]},{"files":2,"columns":[["a","int"]]}],"steps":[{"with_columns":[["p",["add",{"col":"a"},1]]]}]}
< a\n9\n
< a\n1\n
< a\n1\n2\n3\nx\n
4 file 2, row 4, column 0: bad cell

the first file that faults, not the first row
{"version":1,"sources":[{"files":2,"columns":[["a","int"],["b","int"]]}],"steps":[]}
< a,b\n1,2\nx,y\n
< a,b\nx\n
4 file 0, row 2, column 0: bad cell

the earliest row's fault of a later step
{"version":1,"sources":[{"files":1,"columns":[["a","int"],["b","int"]]}],"steps":[{"with_columns":[["p",["add",{"col":"a"},1]]]},{"with_columns":[["q",["add",{"col":"b"},1]]]}]}
< a,b\n0,9223372036854775807\n0,0\n9223372036854775807,0\n
4 step 1, item 0: overflow

the earliest row's fault of the first step
{"version":1,"sources":[{"files":1,"columns":[["a","int"],["b","int"]]}],"steps":[{"with_columns":[["p",["add",{"col":"a"},1]]]},{"with_columns":[["q",["add",{"col":"b"},1]]]}]}
< a,b\n9223372036854775807,0\n0,0\n0,9223372036854775807\n
4 step 0, item 0: overflow

a step's fault before a bad cell
{"version":1,"sources":[{"files":1,"columns":[["a","int"]]}],"steps":[{"with_columns":[["p",["add",{"col":"a"},1]]]}]}
< a\n9223372036854775807\nx\n
4 step 0, item 0: overflow

a bad cell before a step's fault
{"version":1,"sources":[{"files":1,"columns":[["a","int"]]}],"steps":[{"with_columns":[["p",["add",{"col":"a"},1]]]}]}
< a\nx\n9223372036854775807\n
4 file 0, row 1, column 0: bad cell

two steps and a bad cell behind the fault of the first
{"version":1,"sources":[{"files":1,"columns":[["a","int"],["b","int"]]}],"steps":[{"with_columns":[["p",["add",{"col":"a"},1]]]},{"with_columns":[["q",["add",{"col":"b"},1]]]}]}
< a,b\n9223372036854775807,0\nx,0\n
4 step 0, item 0: overflow

two steps and a bad cell before the fault of the first
{"version":1,"sources":[{"files":1,"columns":[["a","int"],["b","int"]]}],"steps":[{"with_columns":[["p",["add",{"col":"a"},1]]]},{"with_columns":[["q",["add",{"col":"b"},1]]]}]}
< a,b\nx,0\n9223372036854775807,0\n
4 file 0, row 1, column 0: bad cell

a later step's fault at an earlier row than that of a rolling sum
{"version":1,"sources":[{"files":1,"columns":[["v","int"]]}],"steps":[{"rolling_sum":{"column":"v","name":"r","window":2,"min_samples":1}},{"with_columns":[["p",["add",{"col":"r"},1]]]}]}
< v\n9223372036854775807\n1\n
4 step 1, item 0: overflow
"#,
    )
}
