//! Gives a tenant's marks to a store alone (the reference model), and compares its replies and words with the
//! world's.
//!
//! Used by: `run`, `stale_helper_tests`.
ghost use Rattle.std.specs.Prelude.{◌<◌, length};

use crate::fault::Fault;
use mw_lone::Mark;
use mw_plain::Lone;
use mw_simulator::World;
use mw_words::{At, Job, Reply, Word};
use mw_world::Tenant;
use std::alloc::Global;

/// A reply that was handed out to a tenant.
#[derive(Clone, Copy)]
pub(crate) struct Handed {
    /// The tenant.
    pub(crate) tenant: u8,
    /// The reply.
    pub(crate) reply: Reply,
}

/// The store alone of a tenant after the tenant's marks.
#[derive(Drop)]
struct Alone {
    lone: Lone,
    /// How many requests were asked.
    asked: u64,
    /// The quota that the last start gave.
    quota: u8,
}

/// Gives a tenant's marks to a new store alone with its words. The store must take them, and hand out what
/// the tenant was handed out. The last start gave the tenant this quota. With `has_words` the world's words must
/// also be those of the store.
pub(crate) fn judge(
    alloc: Global,
    world: &World,
    tenant: u8,
    quota: u8,
    handed: &[Handed],
    has_words: bool,
) -> Result<(), Fault>
    requires { tenant < length world.now.config.tenants.items }
{
    let mut alone = Alone::new(alloc, &world.config().tenants[usize::from(tenant)])?;
    alone.agrees(alloc, world, tenant, quota, handed)?;
    if has_words {
        alone.has_words(world, tenant)
    } else {
        Ok(())
    }
}

/// Checks that these replies are those that the tenant was handed out.
fn compare(replies: &[Reply], tenant: u8, handed: &[Handed]) -> Result<(), Fault> {
    let mut index: usize = 0;
    for other in handed {
        if other.tenant == tenant {
            match replies.get(index) {
                Some(reply) if *reply == other.reply => index = index.saturating_add(1),
                Some(_) => return Err(Fault::Reply),
                None => return Err(Fault::Replies),
            }
        }
    }
    if index == replies.len() {
        Ok(())
    } else {
        Err(Fault::Replies)
    }
}

impl Alone {
    /// Makes the store alone of a tenant, with the words of its first file. It begins faulted if that is an
    /// old file.
    fn new(alloc: Global, tenant: &Tenant) -> Result<Alone, Fault> {
        let mut words = vec![in alloc; 0; usize::from(tenant.words)]?;
        if let Some(change) = &tenant.old {
            for entry in change {
                let place = usize::from(entry.addr);
                if place < words.len() {
                    words[place] = entry.new;
                }
            }
        }
        Ok(Alone {
            lone: Lone::new(alloc, &words, tenant.quota, tenant.old.is_some())?,
            asked: 0,
            quota: tenant.quota,
        })
    }

    /// Takes a tenant's marks. Checks that it hands out what the tenant was handed out, and that the last start
    /// gave this quota.
    fn agrees(
        &mut self,
        alloc: Global,
        world: &World,
        tenant: u8,
        quota: u8,
        handed: &[Handed],
    ) -> Result<(), Fault>
        requires { tenant < length world.now.config.tenants.items }
    {
        let replies = self.replies(alloc, world.marks(tenant)?)?;
        compare(&replies, tenant, handed)?;
        if self.quota == quota {
            Ok(())
        } else {
            Err(Fault::Quota)
        }
    }

    /// Checks that a tenant's words in the world are those of the store, as reads of them tell.
    fn has_words(&mut self, world: &World, tenant: u8) -> Result<(), Fault>
        requires { tenant < length world.now.config.tenants.items }
    {
        let words = world.config().tenants[usize::from(tenant)].words;
        for address in 0..words {
            let word = Word::unpack(world.word(At::Data { tenant, address }));
            match self.read(address)? {
                Some(Reply::Val(value)) if word == Some(Word::Plain(value)) => {}
                Some(Reply::Val(_)) => return Err(Fault::Word),
                _ => return Err(Fault::Reply),
            }
        }
        Ok(())
    }

    /// Gives the store's reply to a read of a word.
    fn read(&mut self, address: u16) -> Result<Option<Reply>, Fault> {
        let request = self.asked;
        self.mark(Mark::Ask(request, Job::Get(address)))?;
        self.mark(Mark::Look(request))?;
        self.mark(Mark::Reply(request))
    }

    /// Gives the marks to the store. Gives the replies that it hands out.
    fn replies(&mut self, alloc: Global, marks: Vec<Mark>) -> Result<Vec<Reply>, Fault> {
        let mut replies = Vec::new(alloc);
        for mark in marks {
            let Some(reply) = self.mark(mark)? else {
                continue;
            };
            if replies.push(reply).is_err() {
                return Err(Fault::Memory);
            }
        }
        Ok(replies)
    }

    fn mark(&mut self, mark: Mark) -> Result<Option<Reply>, Fault> {
        if let Mark::Ask(request, _) = &mark {
            self.asked = request.saturating_add(1);
        }
        if let Mark::Restart { quota, .. } = &mark {
            self.quota = *quota;
        }
        Ok(self.lone.mark(mark)?)
    }
}
