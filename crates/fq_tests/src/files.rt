//! How files are read and rows are printed.
use crate::cases::{gives, hold};
use std::alloc::Global;
use std::test::Fail;

#[test]
fn cut_after_each_byte(rt: HostRuntime) -> Result<(), Fail> {
    hold(
        &rt,
        rt.alloc(),
        r#"
a file that is cut after 0 bytes
{"version":1,"sources":[{"files":1,"columns":[["a","int"],["b","int"]]}],"steps":[]}
<
4 file 0: header differs

a file that is cut after 1 byte
{"version":1,"sources":[{"files":1,"columns":[["a","int"],["b","int"]]}],"steps":[]}
< a
4 file 0: header differs

a file that is cut after 2 bytes
{"version":1,"sources":[{"files":1,"columns":[["a","int"],["b","int"]]}],"steps":[]}
< a,
4 file 0: header differs

a file that is cut after 3 bytes
{"version":1,"sources":[{"files":1,"columns":[["a","int"],["b","int"]]}],"steps":[]}
< a,b
> a,b\n

a file that is cut after 4 bytes
{"version":1,"sources":[{"files":1,"columns":[["a","int"],["b","int"]]}],"steps":[]}
< a,b\n
> a,b\n

a file that is cut after 5 bytes
{"version":1,"sources":[{"files":1,"columns":[["a","int"],["b","int"]]}],"steps":[]}
< a,b\n1
4 file 0, row 1: wrong number of fields

a file that is cut after 6 bytes
{"version":1,"sources":[{"files":1,"columns":[["a","int"],["b","int"]]}],"steps":[]}
< a,b\n1,
> a,b\n1,\n

a file that is cut after 7 bytes
{"version":1,"sources":[{"files":1,"columns":[["a","int"],["b","int"]]}],"steps":[]}
< a,b\n1,2
> a,b\n1,2\n

a file that is cut after 8 bytes
{"version":1,"sources":[{"files":1,"columns":[["a","int"],["b","int"]]}],"steps":[]}
< a,b\n1,2\n
> a,b\n1,2\n

a file that is cut after 9 bytes
{"version":1,"sources":[{"files":1,"columns":[["a","int"],["b","int"]]}],"steps":[]}
< a,b\n1,2\n3
4 file 0, row 2: wrong number of fields

a file that is cut after 10 bytes
{"version":1,"sources":[{"files":1,"columns":[["a","int"],["b","int"]]}],"steps":[]}
< a,b\n1,2\n3,
> a,b\n1,2\n3,\n

a file that is cut after 11 bytes
{"version":1,"sources":[{"files":1,"columns":[["a","int"],["b","int"]]}],"steps":[]}
< a,b\n1,2\n3,4
> a,b\n1,2\n3,4\n

a file that is cut after 12 bytes
{"version":1,"sources":[{"files":1,"columns":[["a","int"],["b","int"]]}],"steps":[]}
< a,b\n1,2\n3,4\n
> a,b\n1,2\n3,4\n
"#,
    )
}

#[test]
fn texts_read_as_null(rt: HostRuntime) -> Result<(), Fail> {
    hold(
        &rt,
        rt.alloc(),
        r#"
texts that are read as null
{"version":2,"sources":[{"files":1,"columns":[["k","text"],["v","int"]],"null_values":["NA","-"]}],"steps":[]}
< k,v\nNA,1\na,-\n-,NA\nna,2\n
> k,v\n,1\na,\n,\nna,2\n

a text that is not read as null
{"version":1,"sources":[{"files":1,"columns":[["k","text"],["v","int"]]}],"steps":[]}
< k,v\nNA,1\na,-\n-,NA\nna,2\n
4 file 0, row 2, column 1: bad cell

a number's text that is read as null
{"version":2,"sources":[{"files":1,"columns":[["v","int"]],"null_values":["1"]}],"steps":[]}
< v\n1\n01\n
> v\n""\n1\n

texts of one source that are read as null and not those of the other
{"version":2,"sources":[{"files":1,"columns":[["k","text"]],"null_values":["b"]},{"files":1,"columns":[["k","text"]]}],"steps":[{"join":{"source":0,"on":["k"],"how":"inner"}}]}
< k\nb\n
< k\nb\n
> k\n
"#,
    )
}

#[test]
fn faults_of_files(rt: HostRuntime) -> Result<(), Fail> {
    hold(
        &rt,
        rt.alloc(),
        r#"
a header that differs in a main file
{"version":1,"sources":[{"files":1,"columns":[["a","int"]]},{"files":2,"columns":[["a","int"]]}],"steps":[{"with_columns":[["p",["add",{"col":"a"},1]]]}]}
< a\n9\n
< b\n7\n
< a\n1\n
4 file 1: header differs

a row of too few fields
{"version":1,"sources":[{"files":1,"columns":[["a","int"],["b","int"]]}],"steps":[]}
< a,b\nx\n
4 file 0, row 1: wrong number of fields

an empty file
{"version":1,"sources":[{"files":1,"columns":[["id","int"],["v","int"]]}],"steps":[{"filter":["gt",{"col":"v"},10]}]}
<
4 file 0: header differs

a header of another name
{"version":1,"sources":[{"files":1,"columns":[["v","int"]]}],"steps":[]}
< w\n11\n
4 file 0: header differs

a number past 64 bits
{"version":1,"sources":[{"files":1,"columns":[["x","int"]]}],"steps":[]}
< x\n9223372036854775808\n
4 file 0, row 1, column 0: bad cell

a bad cell in the second column
{"version":1,"sources":[{"files":1,"columns":[["a","int"],["b","int"]]}],"steps":[]}
< a,b\n1,2\n3,x\n
4 file 0, row 2, column 1: bad cell

a bad cell under a filter
{"version":1,"sources":[{"files":1,"columns":[["v","int"]]}],"steps":[{"filter":["gt",{"col":"v"},10]}]}
< v\n11\nx\n
4 file 0, row 2, column 0: bad cell

a quote that stays open in the header
{"version":1,"sources":[{"files":1,"columns":[["t","text"]]}],"steps":[]}
< "t\na
4 file 0: header differs
"#,
    )
}

#[test]
fn rows_of_files(rt: HostRuntime) -> Result<(), Fail> {
    hold(
        &rt,
        rt.alloc(),
        r#"
files stand in argument order
{"version":1,"sources":[{"files":2,"columns":[["v","int"]]}],"steps":[]}
< v\n1\n2\n3\n
< v\n4\n5\n
> v\n1\n2\n3\n4\n5\n

sixteen files
{"version":1,"sources":[{"files":16,"columns":[["v","int"]]}],"steps":[]}
< v\n3\n4\n
< v\n3\n4\n
< v\n3\n4\n
< v\n3\n4\n
< v\n3\n4\n
< v\n3\n4\n
< v\n3\n4\n
< v\n3\n4\n
< v\n3\n4\n
< v\n3\n4\n
< v\n3\n4\n
< v\n3\n4\n
< v\n3\n4\n
< v\n3\n4\n
< v\n3\n4\n
< v\n3\n4\n
> v\n3\n4\n3\n4\n3\n4\n3\n4\n3\n4\n3\n4\n3\n4\n3\n4\n3\n4\n3\n4\n3\n4\n3\n4\n3\n4\n3\n4\n3\n4\n3\n4\n

numbers with a sign and zeros are printed plainly
{"version":1,"sources":[{"files":1,"columns":[["x","int"]]}],"steps":[]}
< x\n+9223372036854775807\n-0\n007\n
> x\n9223372036854775807\n0\n7\n

texts are quoted where they need it
{"version":1,"sources":[{"files":1,"columns":[["t","text"]]}],"steps":[]}
< t\n""\n"a,b"\n"say ""hi"""\n"x\ny"\n
> t\n""\n"a,b"\n"say ""hi"""\n"x\ny"\n

line ends of two bytes and truth values in capital letters
{"version":1,"sources":[{"files":1,"columns":[["id","int"],["ok","bool"]]}],"steps":[]}
< id,ok\r\n1,TRUE\r\n2,False
> id,ok\n1,true\n2,false\n

a file of its header alone
{"version":1,"sources":[{"files":1,"columns":[["id","int"],["ok","bool"]]}],"steps":[]}
< id,ok\n
> id,ok\n

a quote that stays open in a row
{"version":1,"sources":[{"files":1,"columns":[["t","text"]]}],"steps":[]}
< t\n"a\nb
> t\n"a\nb"\n
"#,
    )
}

// A file of one column, which holds the numbers below a count.
fn counted(alloc: Global, count: usize) -> Result<String, Fail> {
    let mut text = String::from_str(alloc, "v\n")?;
    for number in 0..count {
        text.push_str(format!(in alloc; "{number}\n")?.as_str())?;
    }
    Ok(text)
}

#[test]
fn a_long_file_is_printed_in_several_parts(rt: HostRuntime) -> Result<(), Fail> {
    let text = counted(rt.alloc(), 20_000)?;
    gives(
        &rt,
        rt.alloc(),
        r#"{"version":1,"sources":[{"files":1,"columns":[["v","int"]]}],"steps":[]}"#,
        &[text.as_str()],
        text.as_str(),
    )
}
