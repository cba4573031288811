//! The words that lines begin with.
ghost use Rattle.std.specs.Prelude.{◌≡◌};
ghost use Rattle.capstep.specs.Words.{client_event, command_by, command_of, command_word};

use crate::event::Event;
use capbits::ClientId;
use sessiontab::Status;

/// What a line says, by its first word.
#[derive(Clone, Copy)]
pub enum Command {
    /// A client opens a session.
    Session,
    /// What is said of a client alone.
    OfClient(ClientCommand),
    /// A client's grants are replaced.
    Regrant,
    /// Clients are asked to release.
    Recall,
    /// A client asks for the inode of a name.
    Lookup,
    /// A client makes a file.
    Create,
    /// A client makes a directory.
    Mkdir,
    /// A client makes a snapshot.
    MakeSnapshot,
    /// A client removes a snapshot.
    RemoveSnapshot,
    /// A client opens an inode.
    Open,
    /// A client says what it wants of an inode.
    Want,
    /// A client acknowledges a message.
    Ack,
    /// A client releases caps.
    Release,
    /// A client asks what an inode keeps.
    Get,
    /// A client changes what an inode keeps.
    Alter,
    /// A client unlinks a file.
    Unlink,
    /// A client removes a directory.
    Rmdir,
    /// A client moves an inode.
    Rename,
    /// A client says what it has changed by itself.
    Flush,
    /// A client asks for its messages.
    Poll,
}

/// What a line says of a client, with nothing behind the client.
#[derive(Clone, Copy)]
pub enum ClientCommand {
    /// It ends its session.
    CloseSession,
    /// Its session has another status.
    Mark(Status),
    /// It is thrown out.
    Evict,
    /// It comes off the blocklist.
    Unblock,
}

// Those that come most often stand first, since they are searched for in this order.
const COMMANDS: [Command; 24] = [
    Command::Open,
    Command::Want,
    Command::Ack,
    Command::Release,
    Command::Lookup,
    Command::Get,
    Command::Alter,
    Command::Poll,
    Command::Create,
    Command::Flush,
    Command::Unlink,
    Command::Rename,
    Command::Mkdir,
    Command::Rmdir,
    Command::Recall,
    Command::Session,
    Command::OfClient(ClientCommand::CloseSession),
    Command::OfClient(ClientCommand::Mark(Status::Stale)),
    Command::OfClient(ClientCommand::Mark(Status::Open)),
    Command::Regrant,
    Command::OfClient(ClientCommand::Evict),
    Command::OfClient(ClientCommand::Unblock),
    Command::MakeSnapshot,
    Command::RemoveSnapshot,
];

impl Command {
    /// That which the word is.
    pub fn by_word(word: &[u8]) -> Option<Command>
        ensures { result ≡ command_by word.now }
    {
        COMMANDS
            .iter()
            .copied()
            .find(|command| word == command.word().as_bytes())
    }

    /// That of the line which says the event.
    pub fn of(event: &Event) -> Command
        ensures { result ≡ command_of event.now }
    {
        match event {
            Event::Session { .. } => Command::Session,
            Event::CloseSession { .. } => Command::OfClient(ClientCommand::CloseSession),
            Event::Mark { status, .. } => Command::OfClient(ClientCommand::Mark(*status)),
            Event::Regrant { .. } => Command::Regrant,
            Event::Evict { .. } => Command::OfClient(ClientCommand::Evict),
            Event::Unblock { .. } => Command::OfClient(ClientCommand::Unblock),
            Event::Recall { .. } => Command::Recall,
            Event::Lookup { .. } => Command::Lookup,
            Event::Create { .. } => Command::Create,
            Event::Mkdir { .. } => Command::Mkdir,
            Event::MakeSnapshot { .. } => Command::MakeSnapshot,
            Event::RemoveSnapshot { .. } => Command::RemoveSnapshot,
            Event::Open { .. } => Command::Open,
            Event::Want { .. } => Command::Want,
            Event::Ack { .. } => Command::Ack,
            Event::Release { .. } => Command::Release,
            Event::Get { .. } => Command::Get,
            Event::Alter { .. } => Command::Alter,
            Event::Unlink { .. } => Command::Unlink,
            Event::Rmdir { .. } => Command::Rmdir,
            Event::Rename { .. } => Command::Rename,
            Event::Flush { .. } => Command::Flush,
            Event::Poll { .. } => Command::Poll,
        }
    }

    /// The word.
    pub fn word(self) -> &'static str
        ensures { result.now ≡ command_word self }
    {
        match self {
            Command::Session => "session",
            Command::OfClient(ClientCommand::CloseSession) => "close",
            Command::OfClient(ClientCommand::Mark(Status::Stale)) => "stale",
            Command::OfClient(ClientCommand::Mark(Status::Open)) => "renew",
            Command::Regrant => "regrant",
            Command::OfClient(ClientCommand::Evict) => "evict",
            Command::OfClient(ClientCommand::Unblock) => "unblock",
            Command::Recall => "recall",
            Command::Lookup => "lookup",
            Command::Create => "create",
            Command::Mkdir => "mkdir",
            Command::MakeSnapshot => "mksnap",
            Command::RemoveSnapshot => "rmsnap",
            Command::Open => "open",
            Command::Want => "want",
            Command::Ack => "ack",
            Command::Release => "release",
            Command::Get => "get",
            Command::Alter => "alter",
            Command::Unlink => "unlink",
            Command::Rmdir => "rmdir",
            Command::Rename => "rename",
            Command::Flush => "flush",
            Command::Poll => "poll",
        }
    }
}

impl ClientCommand {
    /// The event that the line says.
    pub fn event(self, client: ClientId) -> Event
        ensures { result ≡ client_event self client }
    {
        match self {
            ClientCommand::CloseSession => Event::CloseSession { client },
            ClientCommand::Mark(status) => Event::Mark { client, status },
            ClientCommand::Evict => Event::Evict { client },
            ClientCommand::Unblock => Event::Unblock { client },
        }
    }
}
