//! What `--check` says of files, and what `--draft` makes of them.
use crate::cases::writes_by;
use std::alloc::Global;
use std::process::Abort;
use std::sync::Wait;
use std::test::Fail;
use std::thread::Threads;

/// A plan of one file with the columns `id` and `v`, both whole numbers, in which `N/A` is null.
const TWO_INTS: &str =
    r#"{"version":2,"sources":[{"files":1,"columns":[["id","int"],["v","int"]],"null_values":["N/A"]}],"steps":[]}"#;

/// A plan whose steps compare constants.
const CONSTANTS: &str =
    r#"{"version":2,"sources":[{"files":1,"columns":[["id","int"],["t","text"]]},{"files":2,"columns":[["id","int"],["ok","bool"]],"null_values":["?"]}],"steps":[{"filter":["eq","ok","true"]},{"with_columns":[["x",["add",1,2]],["y",["and",["lt",1,{"null":"int"}],["ge",{"col":"id"},0]]]]},{"filter":["is_null",["ne",true,false]]}]}"#;

/// A plan whose steps order texts: of `price` and `v` of both sources, and of `name`.
const ORDERS: &str =
    r#"{"version":2,"sources":[{"files":1,"columns":[["k","int"],["price","text"],["v","text"]]},{"files":2,"columns":[["k","int"],["price","text"],["name","text"]],"null_values":["NA"]}],"steps":[{"join":{"source":0,"on":["k"],"how":"left"}},{"filter":["and",["ge",{"col":"price"},"5"],["lt","a",{"col":"name"}]]},{"with_columns":[["p",{"col":"price_right"}],["price",1],["n",{"col":"name"}]]},{"filter":["le",{"col":"price"},3]},{"group_by":{"keys":["n"],"aggs":[["m","max","p"],["low","min","price"],["v","last","v"]]}},{"select":[["m",{"col":"m"}],["v",{"col":"v"}]]},{"filter":["gt",{"col":"v"},{"col":"m"}]}]}"#;

/// A file, the exit status of its check by the plan of two whole numbers, and what is said.
type Row = (&'static str, u8, &'static str);

// Each file is checked so by the plan of two whole numbers, by its name and as standard input.
fn checks<R: Abort + Threads + Wait + Sync>(
    rt: &R,
    alloc: Global,
    rows: &[Row],
) -> Result<(), Fail> {
    for (file, status, said) in rows {
        let wanted = (*status, "", *said);
        let files = &[*file];
        writes_by(
            rt,
            alloc,
            "--plan plan --check 0",
            TWO_INTS,
            files,
            "",
            wanted,
        )?;
    }
    Ok(())
}

#[test]
fn a_file_without_a_problem(rt: HostRuntime) -> Result<(), Fail> {
    checks(
        &rt,
        rt.alloc(),
        &[
            ("id,v\n1,2\n,N/A\n\"3\",-4\n", 0, ""),
            ("\u{FEFF}id,v\r\n\r\n1,2\r\n", 0, ""),
            ("id,v\n", 0, ""),
        ],
    )
}

#[test]
fn bad_fields_and_rows_of_another_width(rt: HostRuntime) -> Result<(), Fail> {
    checks(
        &rt,
        rt.alloc(),
        &[
            (
                "id,v\n1,x\n2\n\n\"3\n\",4\n5,6,7\n",
                4,
                "0:2: column \"v\": \"x\" is not an int\n0:3: 1 field, the header has 2\n0:5: column \"id\": \"3\\n\" is not an int\n0:7: 3 fields, the header has 2\n2 bad fields. \"v\": \"x\" 1; \"id\": \"3\\n\" 1\n2 rows of another width\nframeq: the files have problems\n",
            ),
            (
                "id,v\n1,9223372036854775807\n2,9223372036854775808\n",
                4,
                "0:3: column \"v\": \"9223372036854775808\" is not an int\n1 bad field. \"v\": \"9223372036854775808\" 1\nframeq: the files have problems\n",
            ),
            (
                "id,v\nb,a\na,b\na,c\nc,\"a\"\n",
                4,
                "0:2: column \"id\": \"b\" is not an int\n0:2: column \"v\": \"a\" is not an int\n0:3: column \"id\": \"a\" is not an int\n0:3: column \"v\": \"b\" is not an int\n0:4: column \"id\": \"a\" is not an int\n0:4: column \"v\": \"c\" is not an int\n0:5: column \"id\": \"c\" is not an int\n0:5: column \"v\": \"a\" is not an int\n8 bad fields. \"id\": \"a\" 2, 2 others; \"v\": \"a\" 2, 2 others\nframeq: the files have problems\n",
            ),
        ],
    )
}

#[test]
fn headers_that_differ(rt: HostRuntime) -> Result<(), Fail> {
    checks(
        &rt,
        rt.alloc(),
        &[
            (
                "",
                4,
                "0:1: it has no header\n1 header that differs\nframeq: the files have problems\n",
            ),
            (
                "\nid, v\n1,2\n3,x\n",
                4,
                "0:2: column 1 is \" v\", the plan has \"v\"\n0:4: column \"v\": \"x\" is not an int\n1 bad field. \"v\": \"x\" 1\n1 header that differs\nframeq: the files have problems\n",
            ),
            (
                "id\nx\ny,z,w\n",
                4,
                "0:1: column 1 is missing, the plan has \"v\"\n1 header that differs\nframeq: the files have problems\n",
            ),
            (
                "\"id,v\n1,2\n",
                4,
                "0:1: column 0 is \"id,v\\n1,2\\n\", the plan has \"id\"\n0:1: a quote opened here is not closed\n1 header that differs\n1 flaw of quotes or line ends\nframeq: the files have problems\n",
            ),
            (
                "id,v,w\n1,2,3\n",
                4,
                "0:1: it has 3 columns, the plan has 2\n1 header that differs\nframeq: the files have problems\n",
            ),
        ],
    )
}

#[test]
fn flaws_of_quotes_and_line_ends(rt: HostRuntime) -> Result<(), Fail> {
    checks(
        &rt,
        rt.alloc(),
        &[
            (
                "id,v\n1,\"2\"3\n4,5\n",
                4,
                "0:2: text follows a closing quote\n1 flaw of quotes or line ends\nframeq: the files have problems\n",
            ),
            (
                "id,v\n1,2\r3,4\n5,6\r",
                4,
                "0:2: a carriage return has no line feed\n0:3: a carriage return has no line feed\n2 flaws of quotes or line ends\nframeq: the files have problems\n",
            ),
            (
                "id,v\n1,2\n3,\"4\n5,6\n",
                4,
                "0:3: column \"v\": \"4\\n5,6\\n\" is not an int\n0:3: a quote opened here is not closed\n1 bad field. \"v\": \"4\\n5,6\\n\" 1\n1 flaw of quotes or line ends\nframeq: the files have problems\n",
            ),
            (
                "id,v\n1,\"2\n\"3\n",
                4,
                "0:2: column \"v\": \"2\\n3\" is not an int\n0:3: text follows a closing quote\n1 bad field. \"v\": \"2\\n3\" 1\n1 flaw of quotes or line ends\nframeq: the files have problems\n",
            ),
        ],
    )
}

#[test]
fn a_limit_of_lines(rt: HostRuntime) -> Result<(), Fail> {
    writes_by(
        &rt,
        rt.alloc(),
        "--plan plan --check --limit 2 0",
        TWO_INTS,
        &["id,v\na,b\nc,d\ne\n"],
        "",
        (
            4,
            "",
            "0:2: column \"id\": \"a\" is not an int\n0:2: column \"v\": \"b\" is not an int\n4 bad fields. \"id\": \"a\" 1, 1 other; \"v\": \"b\" 1, 1 other\n1 row of another width\nframeq: the files have problems\n",
        ),
    )
}

#[test]
fn no_limit_of_lines(rt: HostRuntime) -> Result<(), Fail> {
    writes_by(
        &rt,
        rt.alloc(),
        "--plan plan --check --limit 0 0",
        TWO_INTS,
        &["id,v\na,b\n1\n"],
        "",
        (
            4,
            "",
            "0:2: column \"id\": \"a\" is not an int\n0:2: column \"v\": \"b\" is not an int\n0:3: 1 field, the header has 2\n2 bad fields. \"id\": \"a\" 1; \"v\": \"b\" 1\n1 row of another width\nframeq: the files have problems\n",
        ),
    )
}

#[test]
fn a_check_of_standard_input(rt: HostRuntime) -> Result<(), Fail> {
    writes_by(
        &rt,
        rt.alloc(),
        "--plan plan --check -",
        TWO_INTS,
        &[],
        "id,v\n1,x\n",
        (
            4,
            "",
            "-:2: column \"v\": \"x\" is not an int\n1 bad field. \"v\": \"x\" 1\nframeq: the files have problems\n",
        ),
    )
}

#[test]
fn a_check_of_a_file_that_is_missing(rt: HostRuntime) -> Result<(), Fail> {
    writes_by(
        &rt,
        rt.alloc(),
        "--plan plan --check nowhere",
        TWO_INTS,
        &[],
        "",
        (5, "", "frameq: read failed: file 0\n"),
    )
}

#[test]
fn a_check_of_too_few_files(rt: HostRuntime) -> Result<(), Fail> {
    writes_by(
        &rt,
        rt.alloc(),
        "--plan plan --check",
        TWO_INTS,
        &["id,v\n"],
        "",
        (
            2,
            "",
            "error: the following required arguments were not provided:\n  <FILE>...\n\nUsage: frameq --plan <PLAN> --check <FILE>...\n\nFor more information, try '--help'.\n",
        ),
    )
}

#[test]
fn comparisons_of_constants(rt: HostRuntime) -> Result<(), Fail> {
    writes_by(
        &rt,
        rt.alloc(),
        "--plan plan --check 0 1 2",
        CONSTANTS,
        &["id,t\n1,a\n", "id,ok\n1,?\n", "id,ok\n2,TRUE\n"],
        "",
        (
            0,
            "",
            "plan: warning: step 0: [\"eq\", \"ok\", \"true\"] compares two constants; a column is {\"col\": \"ok\"}\nplan: warning: step 1: [\"lt\", 1, {\"null\": \"int\"}] compares two constants\nplan: warning: step 2: [\"ne\", true, false] compares two constants\n",
        ),
    )
}

#[test]
fn orders_of_numbers_that_are_texts(rt: HostRuntime) -> Result<(), Fail> {
    writes_by(
        &rt,
        rt.alloc(),
        "--plan plan --check 0 1 2",
        ORDERS,
        &[
            "k,price,v\n1,10,7\n2,9.5,8\n",
            "k,price,name\n1,3,x\n",
            "k,price,name\n2,NA,y\n4,-1,\n",
        ],
        "",
        (
            0,
            "",
            "plan: warning: step 1: \"ge\" compares \"price\" as texts, but its fields are numbers\nplan: warning: step 4: \"max\" compares \"price\" as texts, but its fields are numbers\nplan: warning: step 6: \"gt\" compares \"v\" as texts, but its fields are numbers\nplan: warning: step 6: \"gt\" compares \"price\" as texts, but its fields are numbers\n",
        ),
    )
}

#[test]
fn orders_of_other_texts(rt: HostRuntime) -> Result<(), Fail> {
    writes_by(
        &rt,
        rt.alloc(),
        "--plan plan --check 0 1 2",
        ORDERS,
        &[
            "k,price,v\n",
            "k,price,name\n1,3,7\n",
            "k,price,name\n2,n/a,y\n3,8\n",
        ],
        "",
        (
            4,
            "",
            "2:3: 2 fields, the header has 3\n1 row of another width\nframeq: the files have problems\n",
        ),
    )
}

#[test]
fn a_draft_of_kinds(rt: HostRuntime) -> Result<(), Fail> {
    writes_by(
        &rt,
        rt.alloc(),
        "--draft 0",
        "",
        &[
            "i,n,z,p,b,m,t,e,w\n1,-5,007,+1,true,1,a,,9223372036854775808\n0,,0,0,FALSE,true,\"1,5\",\"\",1\n",
        ],
        "",
        (
            0,
            "{\n  \"version\": 2,\n  \"sources\": [\n    {\n      \"files\": 1,\n      \"columns\": [\n        [\"i\", \"int\"],\n        [\"n\", \"int\"],\n        [\"z\", \"text\"],\n        [\"p\", \"text\"],\n        [\"b\", \"bool\"],\n        [\"m\", \"text\"],\n        [\"t\", \"text\"],\n        [\"e\", \"text\"],\n        [\"w\", \"text\"]\n      ]\n    }\n  ],\n  \"steps\": []\n}\n",
            "",
        ),
    )
}

#[test]
fn a_draft_with_null_values(rt: HostRuntime) -> Result<(), Fail> {
    writes_by(
        &rt,
        rt.alloc(),
        "--draft --null-values N/A,- 0",
        "",
        &["v,w\n1,-\nN/A,N/A\n,true\n"],
        "",
        (
            0,
            "{\n  \"version\": 2,\n  \"sources\": [\n    {\n      \"files\": 1,\n      \"columns\": [\n        [\"v\", \"int\"],\n        [\"w\", \"bool\"]\n      ],\n      \"null_values\": [\"N/A\", \"-\"]\n    }\n  ],\n  \"steps\": []\n}\n",
            "",
        ),
    )
}

#[test]
fn a_draft_of_sources(rt: HostRuntime) -> Result<(), Fail> {
    writes_by(
        &rt,
        rt.alloc(),
        "--draft 0 1 2 3",
        "",
        &["a,b\n1,2\n", "\na,b\n3,x\n", "c\n1\n", "a,b\n1,2\n3\n"],
        "",
        (
            0,
            "{\n  \"version\": 2,\n  \"sources\": [\n    {\n      \"files\": 2,\n      \"columns\": [\n        [\"a\", \"int\"],\n        [\"b\", \"text\"]\n      ]\n    },\n    {\n      \"files\": 1,\n      \"columns\": [\n        [\"c\", \"int\"]\n      ]\n    },\n    {\n      \"files\": 1,\n      \"columns\": [\n        [\"a\", \"int\"],\n        [\"b\", \"int\"]\n      ]\n    }\n  ],\n  \"steps\": []\n}\n",
            "3:3: a row of another width is left out\n3 has the header of 0: named one after the other, they are one source\n",
        ),
    )
}

#[test]
fn columns_that_are_nearly_ints(rt: HostRuntime) -> Result<(), Fail> {
    writes_by(
        &rt,
        rt.alloc(),
        "--draft 0",
        "",
        &[
            "v,u,s\n0,0,0\n1,1,1\n2,2,2\n3,3,3\n4,4,4\n5,5,5\n6,6,6\n7,7,7\n8,8,8\n9,9,9\n10,10,10\n11,11,11\n12,12,12\n13,13,13\n14,14,14\n15,15,15\n16,16,16\n17,17,17\nx,z,1.5\n19,z,\n",
        ],
        "",
        (
            0,
            "{\n  \"version\": 2,\n  \"sources\": [\n    {\n      \"files\": 1,\n      \"columns\": [\n        [\"v\", \"text\"],\n        [\"u\", \"text\"],\n        [\"s\", \"text\"]\n      ]\n    }\n  ],\n  \"steps\": []\n}\n",
            "\"v\" is text: 19 ints, 1 other (first \"x\", line 20)\n\"u\" is text: 18 ints, 2 \"z\"; --null-values z makes it an int\n\"s\" is text: 18 ints, 1 decimal to 1 place (first line 20); --decimal s=1 reads them as ints\n",
        ),
    )
}

#[test]
fn a_draft_with_decimals_and_dates(rt: HostRuntime) -> Result<(), Fail> {
    writes_by(
        &rt,
        rt.alloc(),
        "--draft --decimal a=2,e=1 --date d 0",
        "",
        &["a,d,e,n,t\n12.5,2024-02-29,,,1\n-3,0001-01-01,,,2.5\n"],
        "",
        (
            0,
            "{\n  \"version\": 2,\n  \"sources\": [\n    {\n      \"files\": 1,\n      \"columns\": [\n        [\"a\", \"int\"],\n        [\"d\", \"int\"],\n        [\"e\", \"int\"],\n        [\"n\", \"text\"],\n        [\"t\", \"text\"]\n      ]\n    }\n  ],\n  \"steps\": []\n}\n",
            "\"t\" is text: 1 int, 1 decimal to 1 place; --decimal t=1 reads them as ints\n",
        ),
    )
}

#[test]
fn drafts_that_refuse_a_notation(rt: HostRuntime) -> Result<(), Fail> {
    for (line, file, said) in [
        (
            "--draft --decimal a=1 0",
            "a\n12.5\n.25\n",
            "\"a\" is text: 1 decimal of at most 1 place, 1 decimal to 2 places; --decimal a=2 reads them as ints\nframeq: --decimal, --date: no such int column\n",
        ),
        (
            "--draft --date a,b --details 0",
            "a,b\n2024-02-29,2023-02-29\n",
            "\"b\" is text: 1 other (first \"2023-02-29\", line 2)\nframeq: --decimal, --date: no such int column\n  \"b\" is not an int column\n  source 0: \"a\"\n  the frame: \"a\"\n",
        ),
        (
            "--draft --date a --decimal a=1 0",
            "a\n5\n",
            "frameq: --decimal, --date: a name stands twice\n",
        ),
        (
            "--draft --date a --decimal a=x nowhere",
            "",
            "frameq: --decimal takes NAME=SCALE, with a scale from 0 to 18\n",
        ),
    ] {
        let files = &[file];
        writes_by(&rt, rt.alloc(), line, "", files, "", (2, "", said))?;
    }
    Ok(())
}

#[test]
fn files_that_draft_nothing(rt: HostRuntime) -> Result<(), Fail> {
    for (file, said) in [
        ("", "frameq: file 0: no header\n"),
        (
            "a,b,a\n",
            "0:1: columns 0 and 2 are both \"a\"\nframeq: file 0: name twice\n",
        ),
        ("\n\n", "frameq: file 0: no header\n"),
        (
            "c0,c1,c2,c3,c4,c5,c6,c7,c8,c9,c10,c11,c12,c13,c14,c15,c16,c17,c18,c19,c20,c21,c22,c23,c24,c25,c26,c27,c28,c29,c30,c31,c32,c33,c34,c35,c36,c37,c38,c39,c40,c41,c42,c43,c44,c45,c46,c47,c48,c49,c50,c51,c52,c53,c54,c55,c56,c57,c58,c59,c60,c61,c62,c63,c64\n",
            "0:1: it has 65 columns\nframeq: file 0: more than 64 columns\n",
        ),
    ] {
        let files = &[file];
        writes_by(&rt, rt.alloc(), "--draft 0", "", files, "", (4, "", said))?;
    }
    Ok(())
}

#[test]
fn a_draft_with_too_many_null_values(rt: HostRuntime) -> Result<(), Fail> {
    writes_by(
        &rt,
        rt.alloc(),
        "--draft --null-values a,b,c,d,e,f,g,h,i,j,k,l,m,n,o,p,q 0",
        "",
        &["v\n1\n"],
        "",
        (
            2,
            "",
            "frameq: a plan has at most 16 files, 8 sources and 16 null values\n",
        ),
    )
}

#[test]
fn many_bad_fields(rt: HostRuntime) -> Result<(), Fail> {
    let alloc = rt.alloc();
    let mut file = String::from_str(alloc, "id,v\n")?;
    for number in 0..1_200 {
        file.push_str(format!(in alloc; "{number},x{number}\n")?.as_str())?;
    }
    let files = &[file.as_str()];
    writes_by(
        &rt,
        alloc,
        "--plan plan --check --limit 1 0",
        TWO_INTS,
        files,
        "",
        (
            4,
            "",
            "0:2: column \"v\": \"x0\" is not an int\n1200 bad fields. \"v\": \"x0\" 1, 1199 others\nframeq: the files have problems\n",
        ),
    )
}
