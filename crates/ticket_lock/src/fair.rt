// The ticket lock is fair.
ghost use Rattle.ticket_lock.specs.Rounds as rounds;

use crate::ticket::Ticket;
use lined_lock::FairProcedures;
use ticket_words::Words;

impl FairProcedures<Words> for Ticket {
    ghost progress = { rounds.progress };
}
