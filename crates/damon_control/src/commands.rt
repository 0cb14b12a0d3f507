ghost use Rattle.std.specs.Prelude.{◌≡◌, ◌+◌, ◌-◌, ◌^◌, ◌<◌, ◌≤◌, ◌∷◌, ◌++◌, [], Some, OnErr, OnOk, length, slice_get};
ghost use Rattle.script_lines.specs.Command.{command_value, lent_value};
ghost use Rattle.damon_control.specs.Commands.{FitsIn, NamesCommit, StaysSame, entry_value};

use damon_types::PlainList;
use live_commit::Commit;
use script_lines::Command;
use std::alloc::{AllocError, Global};
use std::marker::Model;
use std::mem::size_of;

// A command as it is stored: its commit is an index in a list of commits.
type Entry = Command<u32>;

// A script may have millions of commands.
const _: () = prove!(size_of::<Entry>() == 12);

// Commits that entries name.
type Commits = PlainList<Box<Commit>>;

/// The commands of a script in order, fewer than 2^32. Each takes 12 bytes, and a commit its own memory
/// beside these.
#[derive(Drop)]
pub struct Commands {
    entries: PlainList<Entry>,
    commits: Commits,
    // How many more commands fit into both lists, whatever they are.
    spare: u32,
}

impl Model for Commands {
    ghost use Rattle.std.specs.Prelude.{◌≤◌, All, length};
    ghost use Rattle.damon_types.specs.Listed.{Listed};
    ghost use Rattle.script_lines.specs.Command.{CommandValue};
    ghost use Rattle.damon_control.specs.Commands.{NamesCommit, entry_values};

    ghost Value = { Listed CommandValue };

    ghost view = { λ c. record { list = entry_values c.commits.list c.entries.list; spare = c.spare } };

    ghost invariant = { λ c. All (NamesCommit c.commits.list) c.entries.list
        × (length c.commits.list ≤ length c.entries.list)
        × (c.spare ≤ c.entries.spare) × (c.spare ≤ c.commits.spare) };
}

impl Commands {
    /// No commands. Does not allocate.
    pub fn new(alloc: Global) -> Commands
        ensures { result ≡ record { list = []; spare = 0 } }
    {
        Commands {
            entries: PlainList::new(alloc),
            commits: PlainList::new(alloc),
            spare: 0,
        }
    }

    /// The number of commands.
    #[inline]
    pub fn len(&self) -> u32
        ensures { result ≡ length self.now.list }
    {
        self.entries.len()
    }

    /// The command with this index, which must be below [`Commands::len`].
    #[inline]
    pub fn get(&self, index: u32) -> Command<&Commit>
        requires { index < length self.now.list }
        ensures { slice_get self.now.list index ≡ Some (lent_value result) }
    {
        lend(&self.commits, self.entries.get(index))
    }

    /// Appends a command. Allocates; on an error the list is unchanged and the command is dropped. The
    /// list must have fewer than 2^32 - 1 commands.
    #[inline(always)]
    pub fn push(&mut self, item: Command) -> Result<(), AllocError>
        requires { length self.old.list < 2 ^ 32 - 1 }
        ensures ok { OnOk result (self.new.list ≡ self.old.list ++ command_value item ∷ []) }
        ensures spare { OnOk result (self.new.spare ≡ self.old.spare - 1) }
        ensures err { OnErr result (self.new ≡ self.old) }
    {
        self.entries.reserve(1)?;
        reserve_for(&mut self.commits, &item)?;
        let entry = store(&mut self.commits, item);
        self.entries.put(entry);
        self.spare = self.spare.saturating_sub(1);
        Ok(())
    }

    /// How many more commands fit without an allocation, by [`Commands::put`].
    pub fn spare(&self) -> u32
        ensures { result ≡ self.now.spare }
    {
        self.spare
    }

    /// Makes room for at least `extra` more commands; with them the list must have fewer than 2^32.
    /// Allocates; on an error the list is unchanged.
    pub fn reserve(&mut self, extra: u32) -> Result<(), AllocError>
        requires { length self.old.list + extra < 2 ^ 32 }
        ensures list { self.new.list ≡ self.old.list }
        ensures ok { OnOk result (extra ≤ self.new.spare) }
        ensures spare { self.old.spare ≤ self.new.spare }
        ensures err { OnErr result (self.new ≡ self.old) }
    {
        self.entries.reserve(extra)?;
        self.commits.reserve(extra)?;
        self.spare = self.spare.max(extra);
        Ok(())
    }

    /// Appends a command. There must be room for it; does not allocate.
    #[inline(always)]
    pub fn put(&mut self, item: Command)
        requires { 1 ≤ self.old.spare }
        ensures { self.new ≡ record {
          list = self.old.list ++ command_value item ∷ [];
          spare = self.old.spare - 1;
        } }
    {
        let entry = store(&mut self.commits, item);
        self.entries.put(entry);
        self.spare -= 1;
    }
}

// The command of an entry.
#[inline]
fn lend<'a>(commits: &'a Commits, entry: &Entry) -> Command<&'a Commit>
    requires { NamesCommit commits.now.list entry.now }
    ensures { lent_value result ≡ entry_value commits.now.list entry.now }
{
    match entry {
        Command::Touch { page } => Command::Touch { page: *page },
        Command::Sweep { from, to } => Command::Sweep {
            from: *from,
            to: *to,
        },
        Command::Step { times } => Command::Step { times: *times },
        Command::Arm => Command::Arm,
        Command::Finish => Command::Finish,
        Command::Show => Command::Show,
        Command::Commit { commit } => Command::Commit {
            commit: commits.get(*commit),
        },
    }
}

// Makes room for the commit of a command, if it has one.
#[inline(always)]
fn reserve_for(commits: &mut Commits, command: &Command) -> Result<(), AllocError>
    requires { length commits.old.list < 2 ^ 32 - 1 }
    ensures list { commits.new.list ≡ commits.old.list }
    ensures room { OnOk result (FitsIn commits.new.spare command.now) }
    ensures spare { commits.old.spare ≤ commits.new.spare }
{
    match command {
        Command::Commit { .. } => commits.reserve(1),
        _ => Ok(()),
    }
}

// The entry of a command, whose commit is appended to the commits. There is room for it.
#[inline(always)]
fn store(commits: &mut Commits, command: Command) -> Entry
    requires { FitsIn commits.old.spare command }
    ensures exact { entry_value commits.new.list result ≡ command_value command }
    ensures names { NamesCommit commits.new.list result }
    ensures others { StaysSame commits.old.list commits.new.list }
    ensures one { length commits.new.list ≤ length commits.old.list + 1 }
    ensures spare { commits.old.spare - 1 ≤ commits.new.spare }
{
    match command {
        Command::Touch { page } => Command::Touch { page },
        Command::Sweep { from, to } => Command::Sweep { from, to },
        Command::Step { times } => Command::Step { times },
        Command::Arm => Command::Arm,
        Command::Finish => Command::Finish,
        Command::Show => Command::Show,
        Command::Commit { commit } => {
            let index = commits.len();
            commits.put(commit);
            Command::Commit { commit: index }
        }
    }
}
