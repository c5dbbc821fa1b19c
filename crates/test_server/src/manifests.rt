//! The manifests of the tests and their rules, as files of the folder in which a test runs.

use std::{fs, io};

/// Paths and texts. Each manifest has its path as the server's text, and one app, `x`.
const FILES: &[(&str, &str)] = &[
    ("no.rule", "otherwise none;"),
    ("yes.rule", "when bucket >= 0 offer 1;\notherwise none;"),
    ("takes.rule", "when take(q, 0) offer 1;\notherwise none;"),
    (
        "no.toml",
        r#"
server = "no.toml"
[[app]]
appid = "x"
rule = "no.rule"
"#,
    ),
    (
        "yes.toml",
        r#"
server = "yes.toml"
[[app]]
appid = "x"
rule = "yes.rule"
[[app.release]]
version = "2.0.0.0"
codebase = "http://dl.example/"
[[app.release.package]]
name = "x.bin"
hash_sha256 = "ba7816bf8f01cfea414140de5dae2223b00361a396177a9cb410ff61f20015ad"
size = 3
required = true
"#,
    ),
    (
        "forty.toml",
        r#"
server = "forty.toml"
array = [{ name = "q", width = 64, length = 1, quota = 40 }]
[[app]]
appid = "x"
rule = "takes.rule"
[[app.release]]
version = "2.0.0.0"
codebase = "http://dl.example/"
[[app.release.package]]
name = "x.bin"
hash_sha256 = "ba7816bf8f01cfea414140de5dae2223b00361a396177a9cb410ff61f20015ad"
size = 3
required = true
"#,
    ),
    (
        "other.toml",
        r#"
server = "other.toml"
array = [{ name = "q", width = 64, length = 1, quota = 40 }]
[[app]]
appid = "x"
rule = "takes.rule"
[[app.release]]
version = "2.0.0.0"
codebase = "http://dl.example/"
[[app.release.package]]
name = "x.bin"
hash_sha256 = "ba7816bf8f01cfea414140de5dae2223b00361a396177a9cb410ff61f20015ad"
size = 3
required = true
"#,
    ),
    (
        "two.toml",
        r#"
server = "two.toml"
array = [{ name = "q", width = 64, length = 1, quota = 2 }]
[[app]]
appid = "x"
rule = "takes.rule"
[[app.release]]
version = "2.0.0.0"
codebase = "http://dl.example/"
[[app.release.package]]
name = "x.bin"
hash_sha256 = "ba7816bf8f01cfea414140de5dae2223b00361a396177a9cb410ff61f20015ad"
size = 3
required = true
"#,
    ),
    (
        "thousand.toml",
        r#"
server = "thousand.toml"
array = [{ name = "q", width = 64, length = 1, quota = 1000 }]
[[app]]
appid = "x"
rule = "takes.rule"
[[app.release]]
version = "2.0.0.0"
codebase = "http://dl.example/"
[[app.release.package]]
name = "x.bin"
hash_sha256 = "ba7816bf8f01cfea414140de5dae2223b00361a396177a9cb410ff61f20015ad"
size = 3
required = true
"#,
    ),
];

/// Writes all files.
pub(crate) fn write_files(rt: &HostRuntime) -> io::Result<()> {
    for (path, text) in FILES {
        fs::write(rt, *path, text.as_bytes())?;
    }
    Ok(())
}
