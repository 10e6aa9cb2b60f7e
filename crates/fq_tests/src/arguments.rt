//! Arguments of the program.
use crate::cases::{fails_by, prints_by, writes_by};
use std::test::Fail;

#[test]
fn a_batch_size_and_workers(rt: HostRuntime) -> Result<(), Fail> {
    prints_by(
        &rt,
        rt.alloc(),
        "--plan plan --batch 1 --workers 3 0 1",
        r#"{"version":1,"sources":[{"files":2,"columns":[["v","int"]]}],"steps":[]}"#,
        &["v\n1\n", "v\n2\n"],
        "",
        "v\n1\n2\n",
    )
}

#[test]
fn files_before_plan(rt: HostRuntime) -> Result<(), Fail> {
    prints_by(
        &rt,
        rt.alloc(),
        "1 --plan=plan 0",
        r#"{"version":1,"sources":[{"files":2,"columns":[["v","int"]]}],"steps":[]}"#,
        &["v\n1\n", "v\n2\n"],
        "",
        "v\n2\n1\n",
    )
}

#[test]
fn too_few_files(rt: HostRuntime) -> Result<(), Fail> {
    fails_by(
        &rt,
        rt.alloc(),
        "--plan plan 0",
        r#"{"version":1,"sources":[{"files":2,"columns":[["v","int"]]}],"steps":[]}"#,
        &["v\n1\n", "v\n2\n"],
        "",
        2,
        "inputs: wanted 2, got 1",
    )
}

#[test]
fn too_few_files_of_which_none_is_there(rt: HostRuntime) -> Result<(), Fail> {
    fails_by(
        &rt,
        rt.alloc(),
        "--plan plan none",
        r#"{"version":1,"sources":[{"files":2,"columns":[["v","int"]]}],"steps":[]}"#,
        &["v\n1\n", "v\n2\n"],
        "",
        2,
        "inputs: wanted 2, got 1",
    )
}

#[test]
fn too_many_files(rt: HostRuntime) -> Result<(), Fail> {
    fails_by(
        &rt,
        rt.alloc(),
        "--plan plan 0 1 none",
        r#"{"version":1,"sources":[{"files":2,"columns":[["v","int"]]}],"steps":[]}"#,
        &["v\n1\n", "v\n2\n"],
        "",
        2,
        "inputs: wanted 2, got 3",
    )
}

#[test]
fn a_file_that_is_not_there(rt: HostRuntime) -> Result<(), Fail> {
    fails_by(
        &rt,
        rt.alloc(),
        "--plan plan 0 none",
        r#"{"version":1,"sources":[{"files":2,"columns":[["v","int"]]}],"steps":[]}"#,
        &["v\n1\n", "v\n2\n"],
        "",
        5,
        "read failed: file 1",
    )
}

#[test]
fn two_files_that_are_not_there(rt: HostRuntime) -> Result<(), Fail> {
    fails_by(
        &rt,
        rt.alloc(),
        "--plan plan none none",
        r#"{"version":1,"sources":[{"files":2,"columns":[["v","int"]]}],"steps":[]}"#,
        &["v\n1\n", "v\n2\n"],
        "",
        5,
        "read failed: file 0",
    )
}

#[test]
fn a_plan_that_is_not_there(rt: HostRuntime) -> Result<(), Fail> {
    fails_by(
        &rt,
        rt.alloc(),
        "--plan none 0 1",
        r#"{"version":1,"sources":[{"files":2,"columns":[["v","int"]]}],"steps":[]}"#,
        &["v\n1\n", "v\n2\n"],
        "",
        5,
        "cannot read plan",
    )
}

#[test]
fn a_plan_is_checked_before_a_file_is_opened(rt: HostRuntime) -> Result<(), Fail> {
    fails_by(
        &rt,
        rt.alloc(),
        "--plan plan none none",
        r#"{"version":1,"sources":[{"files":1,"columns":[["id","int"],["v","int"]]}],"steps":[{"filter":["gt",{"col":"w"},10]}]}"#,
        &[],
        "",
        3,
        "plan: step 0: no such column",
    )
}

#[test]
fn a_text_that_is_no_plan_before_a_file_is_opened(rt: HostRuntime) -> Result<(), Fail> {
    fails_by(
        &rt,
        rt.alloc(),
        "--plan plan none",
        "{",
        &[],
        "",
        3,
        "plan: not JSON",
    )
}

#[test]
fn a_bad_cell_in_the_second_file(rt: HostRuntime) -> Result<(), Fail> {
    fails_by(
        &rt,
        rt.alloc(),
        "--plan plan 0 1",
        r#"{"version":1,"sources":[{"files":2,"columns":[["v","int"]]}],"steps":[]}"#,
        &["v\n1\n", "v\n1\nx\n"],
        "",
        4,
        "file 1, row 2, column 0: bad cell",
    )
}

#[test]
fn standard_input_in_the_place_of_a_file(rt: HostRuntime) -> Result<(), Fail> {
    prints_by(
        &rt,
        rt.alloc(),
        "--plan plan 0 -",
        r#"{"version":1,"sources":[{"files":2,"columns":[["v","int"]]}],"steps":[]}"#,
        &["v\n1\n"],
        "v\n2\n",
        "v\n1\n2\n",
    )
}

#[test]
fn standard_input_in_the_first_place_with_progress(rt: HostRuntime) -> Result<(), Fail> {
    prints_by(
        &rt,
        rt.alloc(),
        "--plan plan - 0 --progress",
        r#"{"version":1,"sources":[{"files":2,"columns":[["v","int"]]}],"steps":[]}"#,
        &["v\n1\n"],
        "v\n2\n",
        "v\n2\n1\n",
    )
}

#[test]
fn standard_input_twice(rt: HostRuntime) -> Result<(), Fail> {
    fails_by(
        &rt,
        rt.alloc(),
        "--plan plan - -",
        r#"{"version":1,"sources":[{"files":2,"columns":[["v","int"]]}],"steps":[]}"#,
        &[],
        "v\n2\n",
        2,
        "standard input (-) can be read only once",
    )
}

#[test]
fn standard_input_as_a_plan_and_as_a_file(rt: HostRuntime) -> Result<(), Fail> {
    fails_by(
        &rt,
        rt.alloc(),
        "--plan - 0 -",
        r#"{"version":1,"sources":[{"files":2,"columns":[["v","int"]]}],"steps":[]}"#,
        &["v\n1\n"],
        "v\n2\n",
        2,
        "standard input (-) can be read only once",
    )
}

#[test]
fn numbers_that_are_refused(rt: HostRuntime) -> Result<(), Fail> {
    let alloc = rt.alloc();
    for (line, argument, range) in [
        (
            "--plan plan --batch 0 0",
            "'0' for '--batch <N>'",
            "1 to 65536",
        ),
        (
            "--plan plan --batch 65537 0",
            "'65537' for '--batch <N>'",
            "1 to 65536",
        ),
        (
            "--plan plan --batch=many 0",
            "'many' for '--batch <N>'",
            "1 to 65536",
        ),
        (
            "--plan plan --workers 17 0",
            "'17' for '--workers <N>'",
            "1 to 16",
        ),
        (
            "--plan plan --workers ': 0",
            "'':' for '--workers <N>'",
            "1 to 16",
        ),
        (
            "--plan plan --check --limit ten 0",
            "'ten' for '--limit <N>'",
            "0 to 18446744073709551615",
        ),
    ] {
        let text = format!(in alloc;
            "error: invalid value {argument}: it takes a whole number from {range}\n\nFor more information, try '--help'.\n"
        )?;
        let wanted = (2, "", text.as_str());
        writes_by(&rt, alloc, line, "", &["v\n1\n"], "", wanted)?;
    }
    Ok(())
}

// A word that begins with a hyphen is no value of an option before it, and is passed as one or as a file in other ways.
#[test]
fn words_that_begin_with_a_hyphen(rt: HostRuntime) -> Result<(), Fail> {
    let alloc = rt.alloc();
    for (line, word) in [
        ("--plan -x 0", "-x"),
        ("--plan plan -o -x 0", "-x"),
        ("--plan plan --batch -1 0", "-1"),
        ("--plan plan -é 0", "-é"),
    ] {
        let text = format!(in alloc;
            "error: unexpected argument '{word}' found\n\n  tip: to pass '{word}' as a file, use '-- {word}'; as the value of an option, use '=', as in '--plan={word}'\n\nUsage: frameq [OPTIONS] [FILE]...\n\nFor more information, try '--help'.\n"
        )?;
        let wanted = (2, "", text.as_str());
        writes_by(&rt, alloc, line, "", &["v\n1\n"], "", wanted)?;
    }
    let line = "--plan=-x 0";
    fails_by(&rt, alloc, line, "", &[""], "", 5, "cannot read plan")
}

// An argument that would change nothing beside another is refused.
#[test]
fn arguments_that_another_excludes(rt: HostRuntime) -> Result<(), Fail> {
    let alloc = rt.alloc();
    for (line, one, other, usage) in [
        (
            "--plan plan --null-values NA 0",
            "--plan <PLAN>",
            "--null-values <TEXTS>",
            "--plan <PLAN> <FILE>...",
        ),
        (
            "--plan plan --check --null-values NA 0",
            "--plan <PLAN>",
            "--null-values <TEXTS>",
            "--plan <PLAN> --check <FILE>...",
        ),
        (
            "--plan plan --explain --null-values NA",
            "--plan <PLAN>",
            "--null-values <TEXTS>",
            "--plan <PLAN> --explain [FILE]...",
        ),
        (
            "--draft --limit 5 0",
            "--draft",
            "--limit <N>",
            "--draft <FILE>...",
        ),
        (
            "--plan plan --explain --limit 5",
            "--explain",
            "--limit <N>",
            "--plan <PLAN> --explain [FILE]...",
        ),
    ] {
        let text = format!(in alloc;
            "error: the argument '{one}' cannot be used with '{other}'\n\nUsage: frameq {usage}\n\nFor more information, try '--help'.\n"
        )?;
        let wanted = (2, "", text.as_str());
        writes_by(&rt, alloc, line, "", &["v\n1\n"], "", wanted)?;
    }
    Ok(())
}

// The frame would replace the plan: that is said before a file is opened, of a plan that is there or not, and whatever else is wrong.
#[test]
fn a_frame_in_the_place_of_the_plan(rt: HostRuntime) -> Result<(), Fail> {
    let alloc = rt.alloc();
    let said = "the frame would replace the plan";
    let detailed = "the frame would replace the plan\n  the plan is plan\n  --output is plan";
    for (line, plan, fault) in [
        ("--plan plan --output plan none", "{", said),
        ("--plan none -o none 0 1", "", said),
        ("-oplan --plan=plan 0 --details", "{}", detailed),
        ("--plan plan --batch 1 --batch 2 --output plan 0", "{", said),
    ] {
        fails_by(&rt, alloc, line, plan, &["v\n1\n"], "", 2, fault)?;
    }
    Ok(())
}

#[test]
fn names_of_standard_output(rt: HostRuntime) -> Result<(), Fail> {
    let alloc = rt.alloc();
    let plan = r#"{"version":1,"sources":[{"files":1,"columns":[["v","int"]]}],"steps":[]}"#;
    for name in ["-", "/dev/stdout", "/dev/fd/1", "/proc/self/fd/1"] {
        let line = format!(in alloc; "--plan plan --output {name} 0")?;
        prints_by(&rt, alloc, line.as_str(), plan, &["v\n1\n"], "", "v\n1\n")?;
    }
    fails_by(
        &rt,
        alloc,
        "--plan plan --output /dev/fd/10 0",
        plan,
        &["v\n1\n"],
        "",
        5,
        "write failed",
    )
}

#[test]
fn the_version(rt: HostRuntime) -> Result<(), Fail> {
    prints_by(&rt, rt.alloc(), "--version", "", &[], "", "frameq 0.1.0\n")
}

#[test]
fn a_plan_that_is_explained(rt: HostRuntime) -> Result<(), Fail> {
    prints_by(
        &rt,
        rt.alloc(),
        "--plan plan --explain",
        r#"{"version":1,"sources":[{"files":1,"columns":[["customer","int"],["na\"me","text"]]},{"files":2,"columns":[["id","int"],["customer","int"],["paid","bool"]]}],"steps":[{"filter":{"col":"paid"}},{"with_columns":[["twice",["add",{"col":"id"},{"col":"id"}]]]},{"join":{"source":0,"on":["customer"],"how":"left"}},{"select":[["na\"me",{"col":"na\"me"}],["id",{"col":"paid"}]]},{"group_by":{"keys":["na\"me"],"aggs":[["orders","len"]]}},{"rolling_sum":{"column":"orders","window":2,"min_samples":1,"name":"sum"}}]}"#,
        &[],
        "",
        "source 0, 1 file: \"customer\" int, \"na\\\"me\" text\nsource 1, 2 files: \"id\" int, \"customer\" int, \"paid\" bool\nstep 0, filter, in the workers: \"id\" int, \"customer\" int, \"paid\" bool\nstep 1, with_columns, in the workers: \"id\" int, \"customer\" int, \"paid\" bool, + \"twice\" int\nstep 2, join, afterwards: \"id\" int, \"customer\" int, \"paid\" bool, \"twice\" int, + \"na\\\"me\" text\nstep 3, select, afterwards: \"na\\\"me\" text, + \"id\" bool\nstep 4, group_by, afterwards: \"na\\\"me\" text, + \"orders\" int\nstep 5, rolling_sum, afterwards: \"na\\\"me\" text, \"orders\" int, + \"sum\" int\n",
    )
}

#[test]
fn a_plan_that_is_explained_beside_files_that_are_not_there(rt: HostRuntime) -> Result<(), Fail> {
    prints_by(
        &rt,
        rt.alloc(),
        "--explain --plan plan none none none",
        r#"{"version":1,"sources":[{"files":1,"columns":[["customer","int"],["na\"me","text"]]},{"files":2,"columns":[["id","int"],["customer","int"],["paid","bool"]]}],"steps":[{"filter":{"col":"paid"}},{"with_columns":[["twice",["add",{"col":"id"},{"col":"id"}]]]},{"join":{"source":0,"on":["customer"],"how":"left"}},{"select":[["na\"me",{"col":"na\"me"}],["id",{"col":"id"}]]},{"group_by":{"keys":["na\"me"],"aggs":[["orders","len"]]}},{"rolling_sum":{"column":"orders","window":2,"min_samples":1,"name":"sum"}}]}"#,
        &[],
        "",
        "source 0, 1 file: \"customer\" int, \"na\\\"me\" text\nsource 1, 2 files: \"id\" int, \"customer\" int, \"paid\" bool\nstep 0, filter, in the workers: \"id\" int, \"customer\" int, \"paid\" bool\nstep 1, with_columns, in the workers: \"id\" int, \"customer\" int, \"paid\" bool, + \"twice\" int\nstep 2, join, afterwards: \"id\" int, \"customer\" int, \"paid\" bool, \"twice\" int, + \"na\\\"me\" text\nstep 3, select, afterwards: \"na\\\"me\" text, \"id\" int\nstep 4, group_by, afterwards: \"na\\\"me\" text, + \"orders\" int\nstep 5, rolling_sum, afterwards: \"na\\\"me\" text, \"orders\" int, + \"sum\" int\n",
    )
}

#[test]
fn a_plan_is_not_explained_beside_too_few_files(rt: HostRuntime) -> Result<(), Fail> {
    fails_by(
        &rt,
        rt.alloc(),
        "--explain --plan plan 0",
        r#"{"version":1,"sources":[{"files":2,"columns":[["v","int"]]}],"steps":[]}"#,
        &["v\n1\n"],
        "",
        2,
        "inputs: wanted 2, got 1",
    )
}

#[test]
fn a_refused_plan_is_not_explained(rt: HostRuntime) -> Result<(), Fail> {
    fails_by(
        &rt,
        rt.alloc(),
        "--plan plan --explain",
        r#"{"version":1,"sources":[{"files":1,"columns":[["id","int"],["v","int"]]}],"steps":[{"filter":["gt",{"col":"w"},10]}]}"#,
        &[],
        "",
        3,
        "plan: step 0: no such column",
    )
}
