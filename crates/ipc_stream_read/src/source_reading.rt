ghost use Rattle.std.specs.Prelude.{◌≡◌, ◌<◌, ◌≤◌, ◌-◌, ◌^◌, [], Err, None, IfOk, IsSome};
ghost use Rattle.std.specs.Prelude.{IfSome, MatchResult};
ghost use Rattle.ipc_stream_read.specs.Decoding.{HasColumns, taking};
ghost use Rattle.ipc_stream_read.specs.Failures.{FailsAs};
ghost use Rattle.ipc_stream_read.specs.Held.{CountsStop, KeepsWithin, as_fault};
ghost use Rattle.ipc_stream_read.specs.Taken.{Pulls, TakesSchema};
ghost use Rattle.ipc_stream_read.specs.declared.read_stop.ReadStop.TheVariants.{Held};

use crate::decoder::Decoder;
use crate::event::Event;
use crate::read_stop::ReadStop;
use ipc_device::Source;
use ipc_model::Fault;

// Calls the source until there is an event, or none at the source's end, after which the decoder is
// closed. The number of bytes that came is added to `taken`. It stops before a call after which
// more than `most_held` bytes may be held; the decoder takes no more then.
pub fn pull_within<R: Source>(
    source: &mut R,
    decoder: &mut Decoder,
    taken: &mut u64,
    most_held: Option<u64>,
) -> Result<Option<Event>, ReadStop>
    requires between { decoder.old.stage ≡ taking [] }
    requires counted { decoder.old.messages ≤ 2 ^ 64 - 1 }
    requires within { taken.old ≤ 2 ^ 64 - 1 }
    ensures pulled { (pulls : Pulls (R.remaining source.old) (R.remaining source.new) taken.old
        taken.new decoder.old decoder.new (as_fault result))
        × KeepsWithin decoder.old.limits most_held decoder.old.state pulls.x (result ≡ Err Held) }
    ensures limits { decoder.new.limits ≡ decoder.old.limits }
    ensures columns { IfOk result (λ found. IfSome found (HasColumns decoder.new.state)) }
    ensures fewer { IfOk result (λ found. IsSome found → R.bound source.new < R.bound source.old) }
    ensures failures { MatchResult result
        (λ _. (R.failures source.old ≡ 0) × (R.failures source.new ≡ 0))
        (λ why. CountsStop (R.failures source.old) (R.failures source.new) why) }
{
    loop {
        if !decoder.has_room(most_held) {
            decoder.give_up();
            return Err(ReadStop::Held);
        }
        let (count, answer) = decoder.feed_from(source);
        *taken = taken.saturating_add(count as u64);
        if let Some(event) = answer? {
            return Ok(Some(event));
        }
        if count == 0 {
            decoder.close()?;
            return Ok(None);
        }
    }
}

// As `pull_within`, whatever number of bytes is held.
pub fn pull<R: Source>(
    source: &mut R,
    decoder: &mut Decoder,
    taken: &mut u64,
) -> Result<Option<Event>, Fault>
    requires between { decoder.old.stage ≡ taking [] }
    requires counted { decoder.old.messages ≤ 2 ^ 64 - 1 }
    requires within { taken.old ≤ 2 ^ 64 - 1 }
    ensures pulled { Pulls (R.remaining source.old) (R.remaining source.new) taken.old taken.new
        decoder.old decoder.new result }
    ensures limits { decoder.new.limits ≡ decoder.old.limits }
    ensures columns { IfOk result (λ found. IfSome found (HasColumns decoder.new.state)) }
    ensures fewer { IfOk result (λ found. IsSome found → R.bound source.new < R.bound source.old) }
    ensures failures { FailsAs (R.failures source.old) (R.failures source.new) result }
{
    match pull_within(source, decoder, taken, None) {
        Ok(found) => Ok(found),
        Err(stop) => Err(stop.fault()),
    }
}

// Puts the schema at the front of the source in force.
pub fn read_schema<R: Source>(
    source: &mut R,
    decoder: &mut Decoder,
    taken: &mut u64,
) -> Result<(), Fault>
    requires between { decoder.old.stage ≡ taking [] }
    requires fresh { decoder.old.state ≡ None }
    requires none { decoder.old.messages ≡ 0 }
    requires within { taken.old ≤ 2 ^ 64 - 1 }
    ensures schema { TakesSchema (R.remaining source.old) (R.remaining source.new) taken.old
        taken.new decoder.old decoder.new result }
    ensures fewer { IfOk result (λ done. R.bound source.new < R.bound source.old) }
    ensures failures { FailsAs (R.failures source.old) (R.failures source.new) result }
{
    // The decoder refuses a stream that begins with anything else, so the event is the schema's.
    pull(source, decoder, taken)?;
    Ok(())
}
