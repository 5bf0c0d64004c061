//! A talk with a server, and a checker for it.
ghost use Rattle.std.specs.Prelude.{◌≡◌, []};

use lsp_serve::{Checker, End, Enter, MemSink, MemSource, NoMemory, Report, Text, serve};
use std::alloc::{AllocError, Global};
use std::process::Abort;
use std::test::Fail;

/// The messages of a client, each with what is said to it.
pub(crate) const TALK: &[(&str, &str)] = &[
    (
        "Content-Length: 58\r\n\r\n{\"jsonrpc\":\"2.0\",\"id\":1,\"method\":\"initialize\",\"params\":{}}",
        "Content-Length: 237\r\n\r\n{\"id\":1,\"jsonrpc\":\"2.0\",\"result\":{\"capabilities\":{\"codeActionProvider\":{\"codeActionKinds\":[\"quickfix\"]},\"hoverProvider\":true,\"positionEncoding\":\"utf-16\",\"textDocumentSync\":{\"change\":1,\"openClose\":true}},\"serverInfo\":{\"name\":\"lavkheto\"}}}",
    ),
    (
        "Content-Length: 129\r\n\r\n{\"jsonrpc\":\"2.0\",\"method\":\"textDocument/didOpen\",\"params\":{\"textDocument\":{\"uri\":\"u\",\"languageId\":\"sql\",\"version\":1,\"text\":\"a\"}}}",
        "Content-Length: 110\r\n\r\n{\"jsonrpc\":\"2.0\",\"method\":\"textDocument/publishDiagnostics\",\"params\":{\"diagnostics\":[],\"uri\":\"u\",\"version\":1}}",
    ),
    (
        "Content-Length: 44\r\n\r\n{\"jsonrpc\":\"2.0\",\"id\":2,\"method\":\"shutdown\"}",
        "Content-Length: 38\r\n\r\n{\"id\":2,\"jsonrpc\":\"2.0\",\"result\":null}",
    ),
    (
        "Content-Length: 33\r\n\r\n{\"jsonrpc\":\"2.0\",\"method\":\"exit\"}",
        "",
    ),
];

/// It finds no report in any text.
#[derive(Drop)]
struct Silent;

impl Checker for Silent {
    ghost shows = { λ _ _ found. found ≡ [] };

    fn check(&mut self, alloc: Global, _text: &str) -> Result<Vec<Report>, NoMemory> {
        Ok(Vec::new(alloc))
    }
}

impl Enter for Silent {
    ghost enters = { λ old _ new. new ≡ old };

    ghost refuses = { λ _ _ _ _. ⊥ };

    fn enter(&mut self, _alloc: Global, _root: &Option<Text>) -> Result<Option<Text>, NoMemory> {
        Ok(None)
    }
}

/// How many bytes a read gives at most and which reads fail, how many bytes the sink holds at most and which writes fail.
#[derive(Clone, Copy)]
pub(crate) struct Devices<'a> {
    pub(crate) step: usize,
    pub(crate) read_fails: &'a [u32],
    pub(crate) room: usize,
    pub(crate) write_fails: &'a [u32],
}

/// Devices of which none fails.
pub(crate) const SOUND: Devices<'static> = Devices {
    step: 1000,
    read_fails: &[],
    room: 1000,
    write_fails: &[],
};

/// All that a client says.
pub(crate) fn input(alloc: Global) -> Result<String, AllocError> {
    let mut said = String::new(alloc);
    for (message, _) in TALK {
        said.push_str(message)?;
    }
    Ok(said)
}

/// What is said to those messages that end within so many bytes of the input.
pub(crate) fn output(alloc: Global, read: usize) -> Result<String, AllocError> {
    let mut said = String::new(alloc);
    let mut left = read;
    for (message, reply) in TALK {
        if message.len() > left {
            break;
        }
        left -= message.len();
        said.push_str(reply)?;
    }
    Ok(said)
}

/// Serves over an input, and asserts how that ends and what was written. It is the only call of `serve` here, since each of them is proved.
pub(crate) fn serves(
    rt: &impl Abort,
    alloc: Global,
    input: &[u8],
    on: Devices<'_>,
    end: End,
    written: &[u8],
) -> Result<(), Fail> {
    if on.step == 0 {
        return Err(Fail::from("a source without a step"));
    }
    let mut source = MemSource::new(alloc, input, on.step, on.read_fails)?;
    let mut out = MemSink::new(alloc, on.room, on.write_fails)?;
    let ended = serve(alloc, Silent, &mut source, &mut out);
    let is_wanted = ended == end && out.bytes() == written;
    assert!(rt; is_wanted, "where {} bytes are wanted", written.len());
    Ok(())
}
