//! The commands `--help` and `--version`: the pages that the program prints without reading
//! anything.

ghost use Rattle.std.specs.Prelude.{◌≡◌, IfOk, IfErr};
ghost use Rattle.srpnet.specs.Outcomes.{EndsAs};

use crate::outcome::Cause;
use srp_base::Seq;
use std::alloc::Global;

/// The page of `--help`.
pub const HELP: &str = "\
srpnet: the Stream Reservation Protocol (IEEE Std 802.1Q-2018) over a file

  srpnet ledger     reads a ledger file on standard input, one port and the
                    streams that want it, and prints what is booked and why
                    the rest is refused
  srpnet check      reads a scenario file on standard input, a network and
                    what happens in it, and prints its counts
  srpnet explain    reads a scenario file on standard input and says in words
                    which rule it breaks, at which entry and key, and what
                    stands there, or that it keeps all rules
  srpnet explain ledger
                    says the same of a ledger file
  srpnet explain groups
                    says it of a file of groups
  srpnet explain plan
                    says it of a plan file
  srpnet run        reads a scenario file on standard input, runs its network
                    through the ticks and its frames through the shapers, and
                    prints what is registered and booked at each port, what
                    the stations hear, and what became of the frames
  srpnet run journal
                    prints the same, and then what happened, step by step
  srpnet ports
  srpnet ports journal
                    do what run and run journal do, with a thread for each
                    port that has something to do; the ports of a node step
                    it in any order, so reports may differ
  srpnet run bounds
                    prints the report, and then how long class B waits at each
                    port: at most, and at worst in this run
  srpnet run capture N
                    prints what went over link N of the run, counted from 1 in
                    the order of the file, as a capture file: Wireshark reads it
  srpnet plan       reads a plan file on standard input, a network and the
                    streams that are wanted in it, or a scenario file, runs it,
                    and prints which wishes are granted, which are refused, at
                    which port and why, what the network needs to grant them
                    all, and what may have been overlooked
  srpnet plan strict
                    prints the same, and ends with status 10 where some wish
                    isn't granted
  srpnet expand     reads a plan file on standard input and prints the scenario
                    that it stands for
  srpnet margins    reads and runs a scenario file too, and prints what is left
                    at each port, by how much each refused stream misses, and
                    the shapers of the classes as tc-cbs(8) takes them
  srpnet delays     reads and runs a scenario file too, and prints how long
                    frames of each stream wait at each port, and take to each
                    Listener, at most, and how long those of the file took
  srpnet audit      reads a scenario file on standard input, a line that is
                    === output, and what run journal or ports journal printed
                    of it, and says whether a legal run prints just that; else
                    the line where it doesn't, and why, on standard error
  srpnet audit long
                    does the same of an input of up to 64 MiB, where the others
                    have up to 1 MiB: for the journal of a large network
  srpnet explain audit
                    reads what audit reads, up to 64 MiB, and says in words
                    at which line the answer is no and why, what stands there,
                    and what a legal run has there
  srpnet groups     reads a file of groups on standard input, a network whose
                    stations join and part from groups by their addresses,
                    runs MMRP through its ticks, and prints which groups are
                    registered at each port
  srpnet decode mvrp
  srpnet decode msrp
  srpnet decode mmrp
                    reads captured PDUs of that application on standard input,
                    one in a line as hexadecimal digits, or as hex dumps, and
                    prints what each says, or where it breaks
  srpnet capture    reads a capture file of a link on standard input, as tcpdump
                    or Wireshark saves it, and prints what each frame of MVRP,
                    MSRP and MMRP in it says
  srpnet replay     reads some TOML, a line that is === capture, and a capture
                    file of a link on standard input, and prints what stood at
                    its ends, what was owed there, and what was broken
  srpnet gen N      makes the scenario of the number N, 0 to 4294967295, runs
                    it, and prints the run in short; reads no input
  srpnet gen N plan prints that scenario as a file, so that its run can be
                    audited
  srpnet --help     this page; so do -h and help (and no word at all, with
                    status 2)
  srpnet --version  the version

Statuses: 0 done; 2 bad words; 3 the input couldn't be read; 4 it is too long;
5 it isn't TOML; 6 it breaks a rule, which explain tells in words; 7 the output
couldn't be written; 8 the answer of an audit is no; 9 no memory; 10 some wish
isn't granted; 11 the scenario has no such link.

The input files and the printed lines stand in docs/FILES.md.
";

/// The page of `--version`.
pub const VERSION: &str = "srpnet 0.1.0 (rattle-kit-13f)\n";

/// A page as an output.
pub fn output(alloc: Global, page: &str) -> Result<Seq<u8>, Cause>
    ensures output { IfOk result (λ text. text ≡ page.now) }
    ensures ends { EndsAs Cause.Done result }
    ensures not_done { IfErr result (λ c. c ≡ Cause.Done → ⊥) }
{
    Ok(Seq::from_vec(page.as_bytes().to_vec(alloc)?))
}
