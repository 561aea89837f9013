//! The words behind `jail`.

ghost use Rattle.std.specs.Prelude.{◌≡◌, IfOk};
ghost use Rattle.vn_shell.specs.Commands.Jail.{name_of, limit_of, settings_of, jail_of, no_settings, with_value, with_word, command_in};
ghost use Rattle.vn_cells.specs.declared.command.Command.TheVariants as command;
ghost use Rattle.vn_shell.specs.Words.{named_of, of_one, texts};

use crate::words::read_named;
use std::alloc::Global;
use vn_cells::Command;
use vn_types::{NoMemory, Path, read_number};

/// The settings of `jail -c` that have been read.
#[derive(Drop)]
struct Settings {
    vnet: bool,
    persist: bool,
    name: Option<Path>,
    limit: Option<u32>,
}

/// The command that the words behind `jail` mean.
#[tactic(auto, unfolding(crate::specs::Commands::Jail::jail_of))]
pub(crate) fn read_jail(alloc: Global, words: &[&[u8]]) -> Result<Option<Command>, NoMemory>
    ensures { IfOk result (λ r. r ≡ jail_of (texts words.now)) }
{
    let [option, words @ ..] = words else {
        return Ok(None);
    };
    if *option == b"-c".as_slice() {
        return read_settings(alloc, words);
    }
    if *option == b"-r".as_slice() {
        return read_removal(alloc, words);
    }
    Ok(None)
}

/// The jail that is removed, by the words behind `jail -r`.
fn read_removal(alloc: Global, words: &[&[u8]]) -> Result<Option<Command>, NoMemory>
    ensures { IfOk result (λ r. r ≡ of_one named_of command.JailRemove (texts words.now)) }
{
    let [path] = words else {
        return Ok(None);
    };
    Ok(read_named(alloc, path)?.map(|path| Command::JailRemove { path }))
}

/// A new jail, where each setting stands once.
#[tactic(auto, using(crate::proofs::Settings::whole_settings))]
fn read_settings(alloc: Global, words: &[&[u8]]) -> Result<Option<Command>, NoMemory>
    ensures { IfOk result (λ r. r ≡ settings_of (texts words.now)) }
{
    let mut settings = Settings::none();
    for word in words {
        match settings.with(alloc, word)? {
            Some(more) => settings = more,
            None => return Ok(None),
        }
    }
    Ok(settings.command())
}

impl Settings {
    fn none() -> Settings
        ensures { result ≡ no_settings }
    {
        Settings {
            vnet: false,
            persist: false,
            name: None,
            limit: None,
        }
    }

    /// These and one more, unless the word is no setting or was read before.
    #[tactic(auto, unfolding(crate::specs::Commands::Jail::with_word))]
    fn with(self, alloc: Global, word: &[u8]) -> Result<Option<Settings>, NoMemory>
        ensures { IfOk result (λ r. r ≡ with_word self word.now) }
    {
        if word == b"vnet".as_slice() {
            return Ok((!self.vnet).then_some(Settings { vnet: true, ..self }));
        }
        if word == b"persist".as_slice() {
            return Ok(
                (!self.persist).then_some(Settings {
                    persist: true,
                    ..self
                }),
            );
        }
        let name = read_name(alloc, word)?;
        Ok(self.with_value(name, read_limit(word)))
    }

    /// These and a path or a limit, unless the word has none or one was read before.
    fn with_value(self, name: Option<Path>, limit: Option<u32>) -> Option<Settings>
        ensures { result ≡ with_value self name limit }
    {
        if let Some(path) = name {
            return self.name.is_none().then_some(Settings {
                name: Some(path),
                ..self
            });
        }
        let limit = limit?;
        self.limit.is_none().then_some(Settings {
            limit: Some(limit),
            ..self
        })
    }

    /// The command, where all of them were read.
    fn command(self) -> Option<Command>
        ensures { result ≡ command_in self }
    {
        if self.vnet && self.persist {
            let path = self.name?;
            let children_max = self.limit.unwrap_or(0);
            return Some(Command::JailCreate { path, children_max });
        }
        None
    }
}

/// The path in `name=P`.
#[tactic(auto, unfolding(crate::specs::Commands::Jail::name_of))]
fn read_name(alloc: Global, word: &[u8]) -> Result<Option<Path>, NoMemory>
    ensures { IfOk result (λ r. r ≡ name_of word.now) }
{
    match word.strip_prefix(b"name=") {
        Some(text) => read_named(alloc, text),
        None => Ok(None),
    }
}

/// The limit in `children.max=N`.
#[tactic(auto, unfolding(crate::specs::Commands::Jail::limit_of))]
fn read_limit(word: &[u8]) -> Option<u32>
    ensures { result ≡ limit_of word.now }
{
    let number = read_number(word.strip_prefix(b"children.max=")?)?;
    if number < 10_000 {
        return Some(number as u32);
    }
    None
}
