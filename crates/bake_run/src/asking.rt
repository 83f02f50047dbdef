//! The request that the words of a command line spell.
ghost use Rattle.std.specs.Prelude.{◌≡◌, IfErr, IfOk, Some, string_bytes};
ghost use Rattle.path_commands.specs.declared.commands.Verb.{Verb};
ghost use Rattle.path_commands.specs.Commands.{verb_of};
ghost use Rattle.path_commands.specs.Requests.{Fits, aim_of, aim_verb, export, in_file, of_map, request_of, source_of};
ghost use Rattle.path_commands.specs.Words.{AreWorkers, texts_of};
ghost use Rattle.path_commands.specs.Runs.{IsWordsCause};
ghost use Rattle.bake_run.specs.Baking.{export_words};

use path_commands::{BuildOptions, MapAsked, MapSource, Request, Status, read_request};
use std::alloc::{AllocError, Global};

/// The request for the image of a map.
#[derive(Clone, Copy)]
pub(crate) struct Baking<'a> {
    /// The name of the map's file, which is not empty.
    pub(crate) map: &'a str,
    /// How the database of the map is built.
    pub(crate) build: BuildOptions,
}

/// Returns the words of the main program that ask for a database of the same map, built in the same
/// way.
pub(crate) fn ask_words(alloc: Global, words: &[String]) -> Result<Vec<String>, AllocError>
    ensures { IfOk result (λ all. texts_of all.items ≡ export_words (texts_of words.now)) }
{
    let mut all = Vec::new(alloc);
    let first = String::from_str(alloc, "export")?;
    all.push(first)?;
    for word in words {
        let copy = copy_of(alloc, word)?;
        all.push(copy)?;
    }
    Ok(all)
}

/// Returns a copy of the text.
fn copy_of(alloc: Global, text: &String) -> Result<String, AllocError>
    ensures { IfOk result (λ copy. string_bytes copy ≡ string_bytes text.now) }
{
    String::from_str(alloc, text.as_str())
}

/// Returns the request of these words of the main program, of which the first is `export`.
pub(crate) fn read_words<'a>(alloc: Global, words: &'a [String]) -> Result<Baking<'a>, Status>
    requires { verb_of (texts_of words.now) ≡ Some Verb.Export }
    ensures asked { IfOk result (λ asked.
        request_of (texts_of words.entry.now)
        ≡ Some (of_map (in_file asked.map.now) export asked.build)) }
    ensures workers { IfOk result (λ asked. AreWorkers asked.build.workers) }
    ensures refused { IfErr result (IsWordsCause (texts_of words.entry.now)) }
{
    match read_request(alloc, words)? {
        Request::OfMap(asked) => Ok(baking_of(asked)),
        Request::Talk(_) | Request::Serve(_) | Request::Lead(_) => unreachable!(),
        Request::Ask(_) | Request::Follow(_) | Request::Verify(_) => unreachable!(),
    }
}

/// Returns what is asked for by `export`, whose map lies in a file.
fn baking_of<'a>(asked: MapAsked<'a>) -> Baking<'a>
    requires verb { aim_verb (aim_of asked.aim) ≡ Verb.Export }
    requires fits { Fits (source_of asked.source) (aim_of asked.aim) }
    ensures { of_map (in_file result.map.now) export result.build
        ≡ of_map (source_of asked.entry.source) (aim_of asked.entry.aim) asked.entry.build }
{
    match asked.source {
        MapSource::File(map) => Baking {
            map,
            build: asked.build,
        },
        MapSource::Formula { .. } => unreachable!(),
    }
}
